//! The last line of a report: `done`, the place and the kind of a fault, or the name of a fault that has no place.
ghost use Rattle.std.specs.Prelude.{ℕ, ◌++◌, option_map, codes};
ghost use Rattle.rd_base.specs.Chars.{encoded};
ghost use Rattle.rd_io.specs.Devices.{Prints};
ghost use Rattle.rd_run.specs.Reports.{named_key, last_line, located, behind_kind, named_column};

use crate::names::{data_kind, file_word, kind_of, op_key};
use rd_base::Ch;
use rd_dump::{Printed, Token, print_between, print_each, print_tokens};
use rd_files::{DataFile, DataKind};
use rd_io::{Failed, Sink, write_character, write_whole};
use rd_run::{ScriptFault, Status};
use rd_state::Refused;

/// The last line where the words are not those of the command.
const USAGE: &[u8] =
    b"usage: redisplay --data FILE --mirror FILE [--brackets FILE] [--generate N] [--dump]\n";

/// The last line of a run that ended with a status, behind so many lines of the script.
#[derive(Clone, Copy)]
pub struct LastLine<'a>(pub &'a Status, pub u32);

impl Printed for LastLine<'_> {
    ghost use Rattle.rd_run.specs.Reports.{last_line};

    ghost text = { λ last. last_line last.0.now last.1 };

    fn print<K: Sink>(&self, sink: &mut K) -> Result<(), Failed> {
        match self.0 {
            Status::Done => print_done(sink, self.1),
            Status::Usage => write_whole(sink, USAGE),
            Status::BadData(file, number, kind) => print_bad_data(sink, *file, *number, *kind),
            Status::BadScript(number, fault) => print_bad(sink, *number, fault),
            Status::ReadFault => write_whole(sink, b"read fault\n"),
            Status::WriteFault => write_whole(sink, b"write fault\n"),
            Status::NoMemory => write_whole(sink, b"no memory\n"),
        }
    }
}

/// Writes how many lines were run.
fn print_done<K: Sink>(sink: &mut K, lines: u32) -> Result<(), Failed>
    ensures { Prints (K.written sink.old) (K.written sink.new) (K.faults sink.old) (K.faults sink.new) (last_line Status.Done lines) result }
{
    print_between(sink, "done ", lines as u64, " lines\n")
}

/// Writes that a data file is bad.
fn print_bad_data<K: Sink>(
    sink: &mut K,
    file: DataFile,
    number: u32,
    kind: DataKind,
) -> Result<(), Failed>
    ensures { (lines : ℕ) → Prints (K.written sink.old) (K.written sink.new) (K.faults sink.old) (K.faults sink.new) (last_line (Status.BadData file number kind) lines) result }
{
    print_located(sink, file_word(file), number, data_kind(kind))?;
    write_whole(sink, b"\n")
}

/// Writes that a line of the script is bad.
fn print_bad<K: Sink>(sink: &mut K, number: u32, fault: &ScriptFault) -> Result<(), Failed>
    ensures { (lines : ℕ) → Prints (K.written sink.old) (K.written sink.new) (K.faults sink.old) (K.faults sink.new) (last_line (Status.BadScript number fault.now) lines) result }
{
    print_located(sink, "script", number, kind_of(fault))?;
    print_end(sink, fault)
}

/// Writes where a fault stands, and its kind.
fn print_located<'t, K: Sink>(
    sink: &mut K,
    word: &'t str,
    number: u32,
    kind: &'t str,
) -> Result<(), Failed>
    ensures { Prints (K.written sink.old) (K.written sink.new) (K.faults sink.old) (K.faults sink.new) (located word.now number kind.now) result }
{
    let tokens = [
        Token::Text(word),
        Token::Text(":"),
        Token::Number(number as u64),
        Token::Text(": "),
        Token::Text(kind),
    ];
    print_tokens(sink, &tokens)
}

/// Writes what stands behind the kind of a fault, and the newline.
fn print_end<K: Sink>(sink: &mut K, fault: &ScriptFault) -> Result<(), Failed>
    ensures { Prints (K.written sink.old) (K.written sink.new) (K.faults sink.old) (K.faults sink.new) (behind_kind fault.now ++ codes "\n") result }
{
    print_behind_kind(sink, fault)?;
    write_whole(sink, b"\n")
}

/// Writes what stands behind the kind of a fault: the key of a field or the column of a bad format, behind a space.
fn print_behind_kind<K: Sink>(sink: &mut K, fault: &ScriptFault) -> Result<(), Failed>
    ensures { Prints (K.written sink.old) (K.written sink.new) (K.faults sink.old) (K.faults sink.new) (behind_kind fault.now) result }
{
    match fault {
        ScriptFault::Op(fault) => print_key(sink, op_key(fault)),
        ScriptFault::Refused(refused) => print_column(sink, *refused),
        ScriptFault::TooLong => Ok(()),
        ScriptFault::TooMany => Ok(()),
    }
}

/// Writes the column of a bad format behind a space.
fn print_column<K: Sink>(sink: &mut K, refused: Refused) -> Result<(), Failed>
    ensures { Prints (K.written sink.old) (K.written sink.new) (K.faults sink.old) (K.faults sink.new) (named_column refused) result }
{
    match refused {
        Refused::BadFormat(column) => {
            print_tokens(sink, &[Token::Text(" "), Token::Number(column as u64)])
        }
        _ => Ok(()),
    }
}

/// Writes the key of a field behind a space, where there is one.
fn print_key<K: Sink>(sink: &mut K, key: Option<&[Ch]>) -> Result<(), Failed>
    ensures { Prints (K.written sink.old) (K.written sink.new) (K.faults sink.old) (K.faults sink.new) (named_key (option_map (λ key. key.now) key.entry)) result }
{
    match key {
        Some(key) => {
            write_whole(sink, b" ")?;
            print_each(sink, key, print_ch)
        }
        None => Ok(()),
    }
}

/// Writes a character in UTF-8.
fn print_ch<K: Sink>(sink: &mut K, ch: &Ch) -> Result<(), Failed>
    ensures { Prints (K.written sink.old) (K.written sink.new) (K.faults sink.old) (K.faults sink.new) (encoded ch.now) result }
{
    write_character(sink, ch.code())
}
