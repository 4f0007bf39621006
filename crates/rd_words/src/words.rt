//! What the words of the command line say.
ghost use Rattle.std.specs.Prelude.{◌≡◌, false, true, IfOk, Some, is_some, option_map, option_and_then};
ghost use Rattle.std.specs.Option.{option_map_or};
ghost use Rattle.clap.specs.Words.{app_of, found_of, rows_of, rule_of};
ghost use Rattle.rd_words.specs.Words.{is_number, is_true, values_of, number_of};
ghost use Rattle.rd_words.specs.Command.{AreWhole, ReadsWords, command, fault_of, meaning, option_of, texts, values_of_rows};

use clap::builder::ValueParser;
use clap::error::ErrorKind;
use clap::{Arg, ArgAction, ArgMatches, Command};
use rd_base::limits::GENERATED_NUMBER;
use std::alloc::{AllocError, Global};
use thiserror::Error;

// The names of the options and of the flag, as `command` gives them to clap and `words_of` asks for them.
const DATA: &str = "data";

const MIRROR: &str = "mirror";

const BRACKETS: &str = "brackets";

const GENERATE: &str = "generate";

const DUMP: &str = "dump";

/// What the words say. The texts are those of the words.
#[derive(Clone, Copy, Debug, PartialEq, Eq)]
pub struct Words<'a> {
    /// The name of the class file.
    pub class_file: &'a str,
    /// The name of the mirror file.
    pub mirror_file: &'a str,
    /// The name of the bracket file, where there is one.
    pub bracket_file: Option<&'a str>,
    /// The number of the generated script that takes the script's place, at most `GENERATED_NUMBER`.
    pub generate: Option<u32>,
    /// Whether dumps are asked for.
    pub dumps: bool,
}

/// Why the words were not read.
#[derive(Clone, Copy, Debug, PartialEq, Eq, Error)]
pub enum WordsFault {
    /// The words are faulty.
    #[error("the words are faulty")]
    Usage,
    /// Want of memory, which may be answered at any time, whatever the words are.
    #[error("no memory")]
    Memory,
}

impl From<AllocError> for WordsFault {
    ghost use Rattle.std.specs.Prelude.{◌≡◌};
    ghost use Rattle.rd_words.specs.declared.words.WordsFault.TheVariants.{Memory};

    ghost from_gives = { λ _ fault. fault ≡ Memory };

    fn from(_none: AllocError) -> WordsFault {
        WordsFault::Memory
    }
}

/// Reads the words behind the program's name: `--data FILE` and `--mirror FILE`, and where they are wanted `--brackets FILE`,
/// `--generate N` and `--dump`, in any order and each at most once. A value may be joined to its name by `=`; a value that is a
/// word of its own is no flag, so it begins with no hyphen but where it is the hyphen alone. N is 0 to `GENERATED_NUMBER` in
/// decimal digits, before which a plus may stand. A last word `--` says nothing.
///
/// `Usage` comes exactly for other words, `--help` among them: where `clap` refuses the words of this command. Memory may be
/// answered at any time, whatever the words are.
pub fn read_words<'a>(alloc: Global, words: &'a [String]) -> Result<Words<'a>, WordsFault>
    ensures { ReadsWords result (values_of (texts words.now)) }
{
    let command = command(alloc)?;
    match command.try_get_matches_from(words) {
        Ok(matches) => Ok(words_of(&matches)),
        Err(error) => Err(fault_of(error.kind())),
    }
}

/// The fault that an error of `clap` is: want of memory, or faulty words.
fn fault_of(kind: ErrorKind) -> WordsFault
    ensures { result ≡ fault_of kind }
{
    match kind {
        ErrorKind::OutOfMemory => WordsFault::Memory,
        _ => WordsFault::Usage,
    }
}

/// The command, of which `--help` is no word.
fn command<'a>(alloc: Global) -> Result<Command<'a>, AllocError>
    ensures { IfOk result (λ c. app_of c ≡ command) }
{
    Command::new(alloc, "redisplay")
        .no_binary_name(true)
        .disable_help_flag(true)
        .arg(option(alloc, DATA).required(true))?
        .arg(option(alloc, MIRROR).required(true))?
        .arg(option(alloc, BRACKETS))?
        .arg(option(alloc, GENERATE).value_parser(ValueParser::unsigned(
            0,
            GENERATED_NUMBER as u64,
        )))?
        .arg(Arg::new(alloc, DUMP).long(DUMP).action(ArgAction::SetTrue))
}

/// An option that takes a value.
fn option<'a>(alloc: Global, name: &'a str) -> Arg<'a>
    ensures rule { rule_of result ≡ option_of name.entry.now }
    ensures local { result.global ≡ false }
{
    Arg::new(alloc, name).long(name).action(ArgAction::Set)
}

/// What the matches of the command say. `clap` has seen to it that both data files are named, and that a number is in its range.
fn words_of<'a>(matches: &ArgMatches<'a>) -> Words<'a>
    requires { AreWhole (rows_of (found_of matches.now)) }
    ensures { values_of_rows (rows_of (found_of matches.now)) ≡ Some (meaning result) }
{
    Words {
        class_file: given(matches.get_str(DATA)),
        mirror_file: given(matches.get_str(MIRROR)),
        bracket_file: matches.get_str(BRACKETS),
        generate: number_in(matches.get_str(GENERATE)),
        dumps: is_true(matches.get_str(DUMP)),
    }
}

/// The value of an option that `clap` requires.
fn given<'a>(value: Option<&'a str>) -> &'a str
    requires { is_some value ≡ true }
    ensures { value.entry ≡ Some result }
{
    match value {
        Some(text) => text,
        None => unreachable!(),
    }
}

/// The number that a text is, where there is a text.
fn number_in(text: Option<&str>) -> Option<u32>
    requires { option_map_or is_number (option_map (λ t. t.now) text) true ≡ true }
    ensures { result ≡ option_and_then number_of (option_map (λ t. t.now) text.entry) }
{
    Some(number_of(text?))
}

/// The number of a text that `clap` has found to be one of a generated script.
fn number_of(text: &str) -> u32
    requires { is_number text.now ≡ true }
    ensures { number_of text.now ≡ Some result }
{
    match text.parse::<u32>() {
        Ok(number) => number,
        Err(_) => unreachable!(),
    }
}

/// Whether the value of the flag says that it was used.
fn is_true(value: Option<&str>) -> bool
    ensures { result ≡ is_true (option_map (λ t. t.now) value.entry) }
{
    match value {
        Some(text) => text == "true",
        None => false,
    }
}
