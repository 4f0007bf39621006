//! The line of a verdict, written without memory.
ghost use Rattle.rd_io.specs.Devices.{Prints};
ghost use Rattle.rd_audit.specs.Verdicts.{line_of, difference_line, cell_line, bad_line};

use crate::verdict::{Difference, Verdict};
use rd_dump::{print_between, print_placed};
use rd_io::{Failed, Sink, write_whole};

/// Writes the line of a verdict.
pub fn tell<R: Sink>(report: &mut R, verdict: Verdict) -> Result<(), Failed>
    ensures { Prints (R.written report.old) (R.written report.new) (R.faults report.old) (R.faults report.new) (line_of verdict) result }
{
    match verdict {
        Verdict::Yes => write_whole(report, b"yes\n"),
        Verdict::No(difference) => tell_difference(report, difference),
        Verdict::Usage => write_whole(report, b"usage: redisplay_audit FILE\n"),
        Verdict::BadDump(number) => tell_bad(report, number),
        Verdict::TooLong => write_whole(report, b"too long\n"),
        Verdict::ReadFault => write_whole(report, b"read fault\n"),
        Verdict::WriteFault => Ok(()),
        Verdict::NoMemory => write_whole(report, b"no memory\n"),
    }
}

/// Writes the line of what differs.
fn tell_difference<R: Sink>(report: &mut R, difference: Difference) -> Result<(), Failed>
    ensures { Prints (R.written report.old) (R.written report.new) (R.faults report.old) (R.faults report.new) (difference_line difference) result }
{
    match difference {
        Difference::Confused => write_whole(report, b"no confused\n"),
        Difference::Cell(row, column) => tell_cell(report, row, column),
        Difference::Cursor => write_whole(report, b"no cursor\n"),
    }
}

/// Writes the line that names a cell.
fn tell_cell<R: Sink>(report: &mut R, row: u32, column: u32) -> Result<(), Failed>
    ensures { Prints (R.written report.old) (R.written report.new) (R.faults report.old) (R.faults report.new) (cell_line row column) result }
{
    print_placed(report, "no ", (row, column))
}

/// Writes the line that names a bad line of the file.
fn tell_bad<R: Sink>(report: &mut R, number: u32) -> Result<(), Failed>
    ensures { Prints (R.written report.old) (R.written report.new) (R.faults report.old) (R.faults report.new) (bad_line number) result }
{
    print_between(report, "dump:", number as u64, "\n")
}
