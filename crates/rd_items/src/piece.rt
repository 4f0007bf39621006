//! What positions give before marks join and ranges are handed on.
ghost use Rattle.std.specs.Prelude.{◌≡◌, ◌<◌, option_map, slice_get};
ghost use Rattle.rd_items.specs.Pieces.{scene_of, table_in, spec_in, gives_element, give_elements, string_gives, ellipsis_gives, class_in_line, has_element, char_by, spec_piece, open_piece, piece_at};

use crate::item::ItemKind;
use crate::showing::{Showing, is_newline};
use rd_base::{Ch, Class, Face, Glyph};
use rd_glyphs::{MarkRole, Parts};
use rd_objects::{Objects, Spec, Table, Text};
use rd_props::{Hidden, View};

/// A piece of a line: what stands for the positions at the offsets from `at` to `to - 1`. There is no `kind` for hidden text without an
/// ellipsis. It `covers` its positions where it has an element and is no overlay's string.
#[derive(Clone, Copy, Debug, PartialEq, Eq)]
pub struct Piece {
    pub class: Class,
    pub kind: Option<ItemKind>,
    pub face: Face,
    /// Whether this is an overlay's string.
    pub overlay: bool,
    pub covers: bool,
    pub at: u32,
    pub to: u32,
    /// The glyph that marks may join.
    pub base: Option<Glyph>,
    /// The mark that the piece is, where it is one.
    pub mark: Option<u32>,
}

impl Piece {
    ghost use Rattle.std.specs.Prelude.{◌≡◌, ◌<◌};
    ghost use Rattle.rd_items.specs.Covers.{shows_ender};
    ghost use Rattle.rd_items.specs.Pieces.{piece, string_piece, ender_piece};

    /// A piece that marks don't join and that is no overlay's string.
    fn new(
        class: Class,
        kind: Option<ItemKind>,
        face: Face,
        covers: bool,
        at: u32,
        to: u32,
    ) -> Piece
        ensures { result ≡ piece class kind face covers at to }
    {
        Piece {
            class,
            kind,
            face,
            overlay: false,
            covers,
            at,
            to,
            base: None,
            mark: None,
        }
    }

    /// An overlay's string before the position at an offset, where the text has this face.
    pub fn string(at: u32, face: Face, number: u32) -> Piece
        ensures { result ≡ string_piece at face number }
    {
        let kind = Some(ItemKind::Text(number));
        Piece {
            overlay: true,
            ..Piece::new(Class::ON, kind, face, false, at, at)
        }
    }

    /// What ends a block.
    fn ender(face: Face, at: u32) -> Piece
        requires { at < 4294967295 }
        ensures { result ≡ ender_piece face at }
    {
        Piece::new(Class::B, Some(ItemKind::Ender), face, true, at, at + 1)
    }

    /// Whether this ends a block.
    pub fn shows_ender(&self) -> bool
        ensures { result ≡ shows_ender self.now.kind }
    {
        matches!(self.kind, Some(ItemKind::Ender))
    }
}

/// The table of a number, where one was made with it.
fn table_of(objects: &Objects, number: Option<u32>) -> Option<&Table>
    ensures { option_map (λ table. table.now) result ≡ table_in objects.now number }
{
    objects.table(number?)
}

/// What the elements of a buffer's characters depend on. A number that names no table stands for none.
pub fn parts_of<'a>(view: &View<'a>) -> Parts<'a>
    ensures { result ≡ (scene_of view.now).parts }
{
    let settings = view.settings();
    Parts {
        table: table_of(view.objects, settings.table),
        settings,
        classes: view.classes,
        mirrors: view.mirrors,
    }
}

/// The display spec of a number: no columns where none was made with it.
pub fn spec_in(objects: &Objects, number: u32) -> Spec
    ensures { result ≡ spec_in objects.now number }
{
    objects.spec(number).unwrap_or(Spec::Width(0))
}

/// Whether a character of a string gives an element.
fn gives_element(parts: &Parts, ch: Ch) -> bool
    ensures { result ≡ gives_element parts.now.table ch }
{
    is_newline(ch) || !parts.is_empty(ch)
}

/// Whether the characters of a string give any element.
fn give_elements(parts: &Parts, text: &Text) -> bool
    ensures { result ≡ give_elements parts.now.table text.now.chars }
{
    text.chars().iter().any(|ch| gives_element(parts, *ch))
}

/// Whether the string of a number gives any element.
fn string_gives(parts: &Parts, objects: &Objects, number: u32) -> bool
    ensures { result ≡ string_gives parts.now.table (slice_get objects.now.strings number) }
{
    match objects.string(number) {
        Some(text) => give_elements(parts, text),
        None => false,
    }
}

/// Whether the ellipsis gives any element.
fn ellipsis_gives(parts: &Parts) -> bool
    ensures { result ≡ ellipsis_gives parts.now.table }
{
    match parts.table {
        None => true,
        Some(table) => match table.ellipsis() {
            Some(text) => !text.is_empty(),
            None => true,
        },
    }
}

/// The piece of text that a spec replaces.
fn spec_piece(view: &View, spec: Spec, face: Face, at: u32, to: u32) -> Piece
    ensures { result ≡ spec_piece (scene_of view.now) spec face at to }
{
    match spec {
        Spec::Text(number) => {
            let gives = string_gives(&parts_of(view), view.objects, number);
            Piece::new(Class::ON, Some(ItemKind::Text(number)), face, gives, at, to)
        }
        Spec::Width(_) | Spec::Align(_) => {
            Piece::new(Class::S, Some(ItemKind::Space(spec)), face, true, at, to)
        }
    }
}

/// The class of a character inside a line.
pub fn class_in_line(class: Class) -> Class
    ensures { result ≡ class_in_line class }
{
    match class {
        Class::B => Class::S,
        other => other,
    }
}

/// Whether a character has an element.
fn has_element(role: MarkRole) -> bool
    ensures { result ≡ has_element role }
{
    !matches!(role, MarkRole::Empty)
}

/// The piece of a character of this class.
fn char_by(role: MarkRole, class: Class, face: Face, ch: Ch, at: u32) -> Piece
    requires { at < 4294967295 }
    ensures { result ≡ char_by role class face ch at }
{
    let (class, kind) = (class_in_line(class), Some(ItemKind::Char(ch)));
    Piece {
        base: role.base(),
        mark: role.mark(),
        ..Piece::new(class, kind, face, has_element(role), at, at + 1)
    }
}

/// The piece of a position that is neither replaced nor hidden.
fn open_piece(view: &View, face: Face, ch: &Option<Ch>, at: u32) -> Piece
    requires { at < 4294967295 }
    ensures { result ≡ open_piece (scene_of view.now) face ch.now at }
{
    match ch {
        None => Piece::ender(face, at),
        Some(ch) => {
            if is_newline(*ch) {
                return Piece::ender(face, at);
            }
            let role = parts_of(view).mark_role(*ch);
            char_by(role, view.classes.class(*ch), face, *ch, at)
        }
    }
}

/// The piece of the position at an offset, the first of its run, which ends before another.
pub fn piece_at(view: &View, showing: &Showing, ch: &Option<Ch>, at: u32, to: u32) -> Piece
    requires { at < 4294967295 }
    ensures { result ≡ piece_at (scene_of view.now) showing.now ch.now at to }
{
    let face = showing.face;
    match (showing.display, showing.hidden) {
        (Some(number), _) => spec_piece(view, spec_in(view.objects, number), face, at, to),
        (None, Hidden::No) => open_piece(view, face, ch, at),
        (None, Hidden::Plain) => Piece::new(Class::ON, None, face, false, at, to),
        (None, Hidden::Ellipsis) => {
            let gives = ellipsis_gives(&parts_of(view));
            Piece::new(Class::ON, Some(ItemKind::Ellipsis), face, gives, at, to)
        }
    }
}
