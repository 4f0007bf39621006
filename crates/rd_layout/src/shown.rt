//! `ShownWindow`, what a window shows, as rd_views hands it to rd_paint.
use rd_start::Chosen;
use rd_window::{Layout, TextEnds};
use std::marker::Model;

/// What a window shows: the start and the point that were chosen for it, the layout that it then has, and where its text begins and ends,
/// by which the layout tells whether it has the first row of the text and the last one.
#[derive(Drop)]
pub struct ShownWindow<'a> {
    pub chosen: Chosen,
    pub layout: &'a Layout,
    pub ends: TextEnds,
}

impl<'a> Model for ShownWindow<'a> {
    ghost use Rattle.rd_matrix.specs.Entries.{shown_entries};
    ghost use Rattle.rd_window.specs.Views.{WindowView, shows_at, starts_at};

    ghost Value = { WindowView };

    ghost view = { λ w. record {
      anchor = w.chosen.anchor;
      point = w.chosen.point;
      rows = shown_entries w.layout.now.matrix;
      top = starts_at w.ends.begin (shown_entries w.layout.now.matrix);
      bottom = shows_at w.ends.end (shown_entries w.layout.now.matrix);
    } };
}
