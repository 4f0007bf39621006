//! Writing texts and numbers to a sink, without taking memory.
ghost use Rattle.std.specs.Prelude.{ℕ, List, [], ◌∷◌};
ghost use Rattle.std.specs.List.{flat_map};
ghost use Rattle.rd_io.specs.Devices.{Prints};
ghost use Rattle.rd_dump.specs.Dumps.{token_text, tokens_text};
ghost use Rattle.rd_dump.specs.Prints.{PrintsItems};

use itoa::Buffer;
use rd_io::{Failed, Sink, write_whole};

/// A token of a line: a text, or a number in decimal.
#[derive(Clone, Copy)]
pub enum Token<'a> {
    Text(&'a str),
    Number(u64),
}

/// Writes the items of a list one after the other, each by `print`.
pub fn print_each<K: Sink, T, P: Fn(&mut K, &T) -> Result<(), Failed>>(
    sink: &mut K,
    items: &[T],
    print: P,
) -> Result<(), Failed>
    requires { P.IsAlwaysCallable print }
    ensures { (text : T → List ℕ) → PrintsItems K.written K.faults text (P.post print) → Prints (K.written sink.old) (K.written sink.new) (K.faults sink.old) (K.faults sink.new) (flat_map text items.now) result }
{
    for item in items {
        print(sink, item)?;
    }
    Ok(())
}

/// Writes the tokens of a line one after the other.
pub fn print_tokens<K: Sink>(sink: &mut K, tokens: &[Token]) -> Result<(), Failed>
    ensures { Prints (K.written sink.old) (K.written sink.new) (K.faults sink.old) (K.faults sink.new) (tokens_text tokens.now) result }
{
    print_each(sink, tokens, print_token)
}

/// Writes a number between two texts. It takes no memory. `Failed` comes only where the sink's count of faults rose.
pub fn print_between<'a, K: Sink>(
    sink: &mut K,
    before: &'a str,
    number: u64,
    behind: &'a str,
) -> Result<(), Failed>
    ensures { Prints (K.written sink.old) (K.written sink.new) (K.faults sink.old) (K.faults sink.new) (tokens_text (Token.Text before.entry ∷ Token.Number number ∷ Token.Text behind.entry ∷ [])) result }
{
    let tokens = [
        Token::Text(before),
        Token::Number(number),
        Token::Text(behind),
    ];
    print_tokens(sink, &tokens)
}

/// Writes a token.
fn print_token<K: Sink>(sink: &mut K, token: &Token) -> Result<(), Failed>
    ensures { Prints (K.written sink.old) (K.written sink.new) (K.faults sink.old) (K.faults sink.new) (token_text token.now) result }
{
    match token {
        Token::Text(text) => write_whole(sink, text.as_bytes()),
        Token::Number(number) => write_whole(sink, Buffer::new().format(*number).as_bytes()),
    }
}
