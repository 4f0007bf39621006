//! The calls of a form in memory that are to fail.
ghost use Rattle.std.specs.Prelude.{◌≡◌, ◌==◌, ◌+◌, ◌-◌, ◌^◌, min};
ghost use Rattle.std.specs.List.{list_any};

/// How many calls were made, those that are to fail by their numbers, counted from 1, and how many failed.
#[derive(Drop)]
pub struct Calls {
    made: u64,
    failing: Vec<u64>,
    pub faults: u64,
}

impl Calls {
    /// Calls of which none was made, and of which those with these numbers are to fail.
    pub fn new(failing: Vec<u64>) -> Calls
        ensures { result ≡ record { made = 0; failing = failing; faults = 0 } }
    {
        Calls {
            made: 0,
            failing,
            faults: 0,
        }
    }

    /// Lets the calls with these numbers fail, counted from 1 behind this one. The count of faults stays.
    pub fn fail_at(&mut self, failing: Vec<u64>)
        ensures { self.new ≡ record { made = 0; failing = failing; faults = self.old.faults } }
    {
        self.made = 0;
        self.failing = failing;
    }

    /// Counts a call, and answers whether it is to fail.
    pub fn next_fails(&mut self) -> bool
        ensures made { self.new.made ≡ min (self.old.made + 1) (2 ^ 64 - 1) }
        ensures failing { self.new.failing.items ≡ self.old.failing.items }
        ensures faults { self.new.faults ≡ self.old.faults }
        ensures listed { result ≡ list_any (λ call. call == self.new.made) self.old.failing.items }
    {
        self.made = self.made.saturating_add(1);
        self.failing.contains(&self.made)
    }
}
