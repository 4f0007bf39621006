//! The control functions that a terminal obeys.
ghost use Rattle.std.specs.Prelude.{◌≡◌};
ghost use Rattle.rd_term.specs.Controls.{control_of};

/// A control function of ECMA-48, or of the VT100 for the region.
#[derive(Clone, Copy)]
pub(crate) enum Control {
    /// Cursor position, `H`.
    MoveTo,
    /// Erase in page, `J`.
    ClearAll,
    /// Erase in line, `K`.
    EraseToEnd,
    /// Insert line, `L`.
    InsertRows,
    /// Delete line, `M`.
    DeleteRows,
    /// Select graphic rendition, `m`.
    ChangePen,
    /// Set top and bottom margins, `r`.
    SetRegion,
}

impl Control {
    /// The function of a sequence, by its last byte. None where that is another byte.
    pub(crate) fn by(last: u8) -> Option<Control>
        ensures { result ≡ control_of last }
    {
        match last {
            b'H' => Some(Control::MoveTo),
            b'J' => Some(Control::ClearAll),
            b'K' => Some(Control::EraseToEnd),
            b'L' => Some(Control::InsertRows),
            b'M' => Some(Control::DeleteRows),
            b'm' => Some(Control::ChangePen),
            b'r' => Some(Control::SetRegion),
            _ => None,
        }
    }
}
