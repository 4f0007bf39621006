//! What the ops that make objects say.
use crate::word::Named;
use rd_base::{Ch, ListOf};
use rd_objects::RunKind;

/// A run over a string's characters from `from` to `to - 1`, counted from 0: the number of a face or of a display spec.
#[derive(Clone, Copy)]
pub struct OpRun {
    pub from: u64,
    pub to: u64,
    pub kind: RunKind,
    pub value: u64,
}

/// What a display table shows in place of a code.
#[derive(Drop)]
pub struct OpEntry {
    pub code: u32,
    pub text: ListOf<Ch>,
}

/// A display spec: the string of a number, so many columns of blanks, or blanks up to a column.
#[derive(Clone, Copy, PartialEq, Eq)]
pub enum OpSpec {
    Text(u64),
    Width(u32),
    Align(u32),
}

/// What a display spec is.
#[derive(Clone, Copy)]
pub enum SpecName {
    Text,
    Width,
    Align,
}

impl Named for SpecName {
    ghost use Rattle.rd_script.specs.Objects.{spec_names};

    ghost names = { spec_names };

    fn named(text: &str) -> Option<SpecName> {
        match text {
            "string" => Some(SpecName::Text),
            "width" => Some(SpecName::Width),
            "align" => Some(SpecName::Align),
            _ => None,
        }
    }
}
