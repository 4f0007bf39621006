//! What a mode line can show.
use rd_base::Ch;
use std::marker::Model;

/// What a mode line can show: the buffer's name, the line of point from 1, whether the view holds the first row and the last one
/// of the text, how many of the accessible characters stand before the block in which the view begins (`above`) and how many
/// there are (`total`), whether the buffer is modified and whether it is read-only, and whether a part of the text is not
/// accessible (`narrowed`).
#[derive(Drop)]
pub struct Facts<'a> {
    pub name: &'a [Ch],
    pub line: u32,
    pub top: bool,
    pub bottom: bool,
    pub above: u32,
    pub total: u32,
    pub modified: bool,
    pub read_only: bool,
    pub narrowed: bool,
}

impl<'a> Model for Facts<'a> {
    ghost use Rattle.rd_modeline.specs.Values.{FactValues};

    ghost Value = { FactValues };

    ghost view = { λ f. record {
      name = f.name.now;
      line = f.line;
      top = f.top;
      bottom = f.bottom;
      above = f.above;
      total = f.total;
      modified = f.modified;
      read_only = f.read_only;
      narrowed = f.narrowed;
    } };
}
