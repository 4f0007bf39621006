//! The lines of the report. Each is one write where a `Piece` of rd_io has room for it, and takes no memory.
ghost use Rattle.std.specs.Prelude.{◌++◌, codes};
ghost use Rattle.std.specs.Fmt.{decimal};
ghost use Rattle.rd_io.specs.Devices.{Prints};
ghost use Rattle.rd_run.specs.Reports.{no_memory_line};

use crate::halt::Summary;
use rd_dump::{Printed, Token, TokenLine, print_at_once, print_tokens};
use rd_io::{Failed, Sink};

/// Writes the line of a redisplay: its line's number in the script, from 1, how it ended, and how many rows were sent.
pub fn tell_rows<R: Sink>(report: &mut R, number: u32, ended: &str, rows: u32) -> Result<(), Failed>
    ensures { Prints (R.written report.old) (R.written report.new) (R.faults report.old) (R.faults report.new) (decimal number ++ (ended.now ++ (decimal rows ++ codes " rows\n"))) result }
{
    let tokens = [
        Token::Number(number as u64),
        Token::Text(ended),
        Token::Number(rows as u64),
        Token::Text(" rows\n"),
    ];
    print_at_once(report, &TokenLine(&tokens))
}

/// Writes that the redisplay of the line of a number found no memory.
pub fn tell_no_memory<R: Sink>(report: &mut R, number: u32) -> Result<(), Failed>
    ensures { Prints (R.written report.old) (R.written report.new) (R.faults report.old) (R.faults report.new) (no_memory_line number) result }
{
    let tokens = [Token::Number(number as u64), Token::Text(": no memory\n")];
    print_at_once(report, &TokenLine(&tokens))
}

/// The four lines at the end of a generated script.
impl Printed for Summary {
    ghost use Rattle.rd_player.specs.Acts.{summary_of};

    ghost text = { summary_of };

    fn print<K: Sink>(&self, sink: &mut K) -> Result<(), Failed> {
        let tokens = [
            Token::Text("lines "),
            Token::Number(self.lines as u64),
            Token::Text("\nredisplays "),
            Token::Number(self.shown as u64),
            Token::Text("\ncharacters "),
            Token::Number(self.characters as u64),
            Token::Text("\nstart "),
            Token::Number(self.start.pos as u64),
            Token::Text("."),
            Token::Number(self.start.row as u64),
            Token::Text("\n"),
        ];
        print_tokens(sink, &tokens)
    }
}
