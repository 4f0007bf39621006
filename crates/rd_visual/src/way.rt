//! The two ways of a step in visual order.

/// Where a step leads: to the item behind the one that covers a position, or to the item before it.
#[derive(Clone, Copy)]
pub enum Way {
    Forward,
    Backward,
}

impl Way {
    ghost use Rattle.std.specs.Prelude.{◌≡◌};
    ghost use Rattle.rd_visual.specs.Ways.{opposite, way_in};

    /// The other way.
    fn opposite(self) -> Way
        ensures { result ≡ opposite self }
    {
        match self {
            Way::Forward => Way::Backward,
            Way::Backward => Way::Forward,
        }
    }

    /// The way in a block of a base level: this one in a block that is read from the left edge, and the other one in a block that is
    /// read from the right edge.
    pub fn in_block(self, base: u8) -> Way
        ensures { result ≡ way_in self base }
    {
        match base {
            0 => self,
            _ => self.opposite(),
        }
    }
}
