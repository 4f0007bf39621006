//! The margin strings of overlays.
ghost use Rattle.std.specs.Prelude.{◌≡◌, IfOk, OnOk, OnErr, IsOk, None};
ghost use Rattle.std.specs.FinMap as map;
ghost use Rattle.rd_overlays.specs.Values.{last_given};
ghost use Rattle.rd_margins.specs.Marks.{marked};

use rd_base::Memory;
use rd_overlays::last_given;
use std::alloc::Global;
use std::collections::BTreeMap;
use std::marker::Model;

/// The margin strings of a buffer's overlays, by the overlays' numbers. Contracts see it as a finite map from numbers of overlays
/// to numbers of strings.
#[derive(Drop)]
pub struct Marks {
    strings: BTreeMap<u32, u32>,
}

impl Model for Marks {
    ghost use Rattle.std.specs.Ordering.{nat_cmp};
    ghost use Rattle.std.specs.Prelude.{ℕ};
    ghost use Rattle.std.specs.FinMap as map;
    ghost use Rattle.std.specs.Coded.{coded_ℕ};

    ghost Value = { map.FinMap nat_cmp ℕ };

    ghost coded = { map.code coded_ℕ coded_ℕ };

    ghost view = { λ m. map.from_entries m.strings.entries };
}

impl Marks {
    /// No margin string.
    pub fn new(alloc: Global) -> Result<Marks, Memory>
        ensures { IfOk result (λ marks. marks ≡ map.empty) }
    {
        Ok(Marks {
            strings: BTreeMap::new(alloc),
        })
    }

    /// Gives an overlay a margin string, or takes it away. Where memory is wanting nothing changes; to take a string away needs
    /// none.
    pub fn set(&mut self, overlay: u32, string: Option<u32>) -> Result<(), Memory>
        ensures ok { OnOk result (self.new ≡ marked self.old overlay string) }
        ensures err { OnErr result (self.new ≡ self.old) }
        ensures taken { string ≡ None → IsOk result }
    {
        match string {
            Some(string) => {
                self.strings.insert(overlay, string)?;
            }
            None => {
                self.strings.remove(&overlay);
            }
        }
        Ok(())
    }

    /// The margin string of an overlay, and None exactly where nothing was set or the last that was set is nothing.
    pub fn get(&self, overlay: u32) -> Option<u32>
        ensures { result ≡ map.get self.now overlay }
    {
        self.strings.get(&overlay).copied()
    }

    /// The margin string of the last of these overlays that has one. Over a listing of the overlays that cover a position, it is
    /// the margin string there.
    pub fn last_of(&self, overlays: &[u32]) -> Option<u32>
        ensures { result ≡ last_given (map.get self.now) overlays.now }
    {
        last_given(overlays, |overlay| self.get(overlay))
    }
}
