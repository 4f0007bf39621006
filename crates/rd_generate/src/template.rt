//! The lines of the generated text.
ghost use Rattle.std.specs.Prelude.{◌≡◌, ◌<◌, ◌++◌, [], OnOk, get_or};
ghost use Rattle.rd_generate.specs.Generated.{after, choice, spelling, templates, text_line};

use rd_base::{ListOf, Memory};

/// The number behind another one.
pub fn after(x: u32) -> u32
    ensures { result ≡ after x }
{
    ((1_103_515_245 * x as u64 + 12_345) % 2_147_483_648) as u32
}

/// Adds a line of the text to a text of JSON: the spaces of the k-th line, the template that a number chooses, and a newline.
pub fn push_line(line: &mut ListOf<u8>, k: u32, x: u32) -> Result<(), Memory>
    ensures { OnOk result (line.new ≡ line.old ++ spelling (text_line k x)) }
{
    line.push_copies(2 * (k as u64 % 5), b' ')?;
    line.extend_from_slice(chosen(x).as_bytes())?;
    line.extend_from_slice(b"\\n")?;
    Ok(())
}

/// The template that a number chooses.
fn chosen(x: u32) -> &'static str
    ensures { result.now ≡ spelling (get_or templates (choice x) []) }
{
    template(choice(x))
}

/// Which template a number chooses.
fn choice(x: u32) -> u32
    ensures value { result ≡ choice x }
    ensures bound { result < 8 }
{
    (x / 65_536) % 8
}

/// A template, as a text of JSON has it.
#[tactic(auto, unfolding(crate::specs::Generated::encode_utf8))]
fn template(choice: u32) -> &'static str
    requires { choice < 8 }
    ensures { result.now ≡ spelling (get_or templates choice []) }
{
    match choice {
        0 => "let total = base + 1",
        1 => "if counted > limit {",
        2 => "return value + other",
        3 => "// אבגדהוזחטיךכלםמןנ",
        4 => "// 中中中中中中中中中中中中中中中中中",
        5 => "call(\\targument, one)",
        6 => "end_of_the_block_one",
        _ => "--------------------",
    }
}
