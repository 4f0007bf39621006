//! The ops on windows and on the frame.
ghost use Rattle.rd_embed.specs.Asked.{asked_echo, asked_frame, asked_go, asked_hit, asked_hscroll, asked_margin, asked_mode_line, asked_no_mode_line, asked_point, asked_remove, asked_scroll, asked_scrolling, asked_select, asked_shift, asked_show, asked_split, asked_start, asked_wrap};
ghost use Rattle.rd_embed.specs.Calls.{Asks, Does};

use crate::asking::plain_text_of;
use crate::choices::{right_of, side_of, wrap_of};
use crate::embedded::Embedded;
use crate::ending::Ending;
use crate::ranges::{are_margins, is_frame, is_place, is_scroll, is_scrolling};
use crate::status::Status;
use rd_base::limits::{HSCROLL_COLUMNS, START_ROW};
use rd_script::Op;
use std::alloc::Global;

impl Embedded {
    /// Resizes the frame.
    pub fn frame(&mut self, width: u32, height: u32) -> Status
        ensures { Does result (asked_frame width height) self.old self.new }
    {
        if !is_frame(width, height) {
            return self.stop(Ending::BadArgument);
        }
        self.perform(Op::Frame { width, height })
    }

    /// Splits a window, which keeps its first `size` rows or columns.
    pub fn split(&mut self, window: u32, side: u32, size: u32) -> Status
        ensures { Does result (asked_split window side size) self.old self.new }
    {
        match side_of(side) {
            Some(side) => self.perform(Op::Split {
                window: window as u64,
                side,
                size: size as u64,
            }),
            None => self.stop(Ending::BadArgument),
        }
    }

    /// Takes a window away.
    pub fn remove(&mut self, window: u32) -> Status
        ensures { Does result (asked_remove window) self.old self.new }
    {
        self.perform(Op::Remove {
            window: window as u64,
        })
    }

    /// Selects a window.
    pub fn select(&mut self, window: u32) -> Status
        ensures { Does result (asked_select window) self.old self.new }
    {
        self.perform(Op::Select {
            window: window as u64,
        })
    }

    /// Shows a buffer in a window.
    pub fn show(&mut self, alloc: Global, window: u32, buffer: u32) -> Status
        ensures { Asks result (asked_show self.old.session.state.buffers window buffer) self.old self.new }
    {
        match self.name(alloc, buffer) {
            Ok(buffer) => self.perform(Op::Show {
                window: window as u64,
                buffer,
            }),
            Err(ending) => self.stop(ending),
        }
    }

    /// Moves a window's point.
    pub fn point(&mut self, window: u32, position: u32) -> Status
        ensures { Does result (asked_point window position) self.old self.new }
    {
        self.perform(Op::Point {
            window: window as u64,
            pos: position as u64,
        })
    }

    /// Forces a window's start.
    pub fn start(&mut self, window: u32, position: u32, row: u32) -> Status
        ensures { Does result (asked_start window position row) self.old self.new }
    {
        if row > START_ROW {
            return self.stop(Ending::BadArgument);
        }
        self.perform(Op::Start {
            window: window as u64,
            pos: position as u64,
            row,
        })
    }

    /// Scrolls a window by so many rows: down its text, or up where the number is below 0.
    pub fn scroll(&mut self, window: u32, rows: i32) -> Status
        ensures { Does result (asked_scroll window rows) self.old self.new }
    {
        if !is_scroll(rows) {
            return self.stop(Ending::BadArgument);
        }
        self.perform(Op::Scroll {
            window: window as u64,
            rows: rows as i64,
        })
    }

    /// Scrolls a window sideways.
    pub fn hscroll(&mut self, window: u32, columns: u32) -> Status
        ensures { Does result (asked_hscroll window columns) self.old self.new }
    {
        if columns > HSCROLL_COLUMNS {
            return self.stop(Ending::BadArgument);
        }
        self.perform(Op::Hscroll {
            window: window as u64,
            columns,
        })
    }

    /// Says what becomes of a window's long lines.
    pub fn wrap(&mut self, window: u32, mode: u32) -> Status
        ensures { Does result (asked_wrap window mode) self.old self.new }
    {
        match wrap_of(mode) {
            Some(mode) => self.perform(Op::Wrap {
                window: window as u64,
                mode,
            }),
            None => self.stop(Ending::BadArgument),
        }
    }

    /// Gives a window a mode line.
    pub fn mode_line(&mut self, alloc: Global, window: u32, format: &[u8]) -> Status
        ensures { Asks result (asked_mode_line window format.now) self.old self.new }
    {
        match plain_text_of(alloc, format) {
            Ok(format) => self.perform(Op::ModeLine {
                window: window as u64,
                format: Some(format),
            }),
            Err(ending) => self.stop(ending),
        }
    }

    /// Takes a window's mode line away.
    pub fn no_mode_line(&mut self, window: u32) -> Status
        ensures { Does result (asked_no_mode_line window) self.old self.new }
    {
        self.perform(Op::ModeLine {
            window: window as u64,
            format: None,
        })
    }

    /// Gives a window margins of so many columns: for line numbers, and for margin strings.
    pub fn margin(&mut self, window: u32, numbers: u32, strings: u32) -> Status
        ensures { Does result (asked_margin window numbers strings) self.old self.new }
    {
        if !are_margins(numbers, strings) {
            return self.stop(Ending::BadArgument);
        }
        self.perform(Op::Margin {
            window: window as u64,
            numbers,
            strings,
        })
    }

    /// Sets the scroll margin, and up to how many rows a view is scrolled to show point.
    pub fn scrolling(&mut self, margin: u32, conservatively: u32) -> Status
        ensures { Does result (asked_scrolling margin conservatively) self.old self.new }
    {
        if !is_scrolling(margin, conservatively) {
            return self.stop(Ending::BadArgument);
        }
        self.perform(Op::Scrolling {
            margin,
            conservatively,
        })
    }

    /// Shows a text in the echo area.
    pub fn echo(&mut self, alloc: Global, text: &[u8]) -> Status
        ensures { Asks result (asked_echo text.now) self.old self.new }
    {
        match plain_text_of(alloc, text) {
            Ok(text) => self.perform(Op::Echo { text }),
            Err(ending) => self.stop(ending),
        }
    }

    /// Says whether the terminal may shift rows.
    pub fn shift(&mut self, on: bool) -> Status
        ensures { Does result (asked_shift on) self.old self.new }
    {
        self.perform(Op::Shift { on })
    }

    /// Moves a window's point to the item beside it, as it is seen.
    pub fn go(&mut self, window: u32, side: u32) -> Status
        ensures { Does result (asked_go window side) self.old self.new }
    {
        match right_of(side) {
            Some(right) => self.perform(Op::Go {
                window: window as u64,
                right,
            }),
            None => self.stop(Ending::BadArgument),
        }
    }

    /// Moves a window's point to what its last layout shows in a row and a column of its text.
    pub fn hit(&mut self, window: u32, row: u32, column: u32) -> Status
        ensures { Does result (asked_hit window row column) self.old self.new }
    {
        if !is_place(row, column) {
            return self.stop(Ending::BadArgument);
        }
        self.perform(Op::Hit {
            window: window as u64,
            row,
            column,
        })
    }
}
