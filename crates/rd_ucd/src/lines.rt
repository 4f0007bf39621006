//! The walk over the lines of a data file.
ghost use Rattle.std.specs.Prelude.{[], IfOk};
ghost use Rattle.rd_ucd.specs.Lines.{lines_of, ReadsLines};

use crate::fault::UcdFault;
use crate::pieces::split_first;

/// What reads a data file line by line.
pub trait LineReader: Drop {
    ghost use Rattle.std.specs.Prelude.{ℕ, List, Result};
    ghost use Rattle.rd_ucd.specs.declared.fault.UcdFault.{UcdFault};
    ghost use Rattle.rd_ucd.specs.Lines.{TakesLine};

    /// What a file is made of.
    type Value;

    // what is so between two lines
    ghost is_reading: { Self → Type 0 };

    // what the file stands for, where these lines are left
    ghost whole: { Self → List (ℕ × List ℕ) → Result (List Self.Value) UcdFault };

    /// Reads the line of a number.
    fn read_line(&mut self, number: u64, line: &[u8]) -> Result<(), UcdFault>
        requires { is_reading self.old }
        ensures reading { is_reading self.new }
        ensures line { TakesLine result (whole self.old) (whole self.new) number line.now };
}

/// Reads all lines of a file, counted from 1. They end at byte 10, which the last may lack.
pub fn read_lines<R: LineReader>(reader: R, bytes: &[u8]) -> Result<R, UcdFault>
    requires { R.is_reading reader }
    ensures reading { IfOk result R.is_reading }
    ensures lines { ReadsLines result (R.whole reader (lines_of bytes.now)) (λ read. R.whole read []) }
{
    let mut reader = reader;
    let mut rest = bytes;
    let mut number = 1;
    'lines: loop {
        let (line, more) = split_first(rest, b'\n');
        reader.read_line(number, line)?;
        match more {
            None => return Ok(reader),
            Some(more) => rest = more,
        }
        number += 1;
    }
}
