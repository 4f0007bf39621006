//! One window over its rectangle: its rows behind their margins, its border and its mode line.
ghost use Rattle.std.specs.Prelude.{◌≡◌, OnOk};
ghost use Rattle.rd_frame.specs.Fits.{FitsWindow, StandsOn};
ghost use Rattle.rd_frame.specs.Paints.{with_rectangle};
ghost use Rattle.rd_frame.specs.Panes.{window_rows};
ghost use Rattle.rd_term.specs.Pictures.{width_of};
ghost use Rattle.rd_paint.specs.Shown.{IsViewOf, of_classes, pane_in};

use crate::border::border_slot;
use crate::leaf::Leaf;
use crate::margins::WindowMargins;
use crate::mode_line::mode_line;
use rd_base::Memory;
use rd_frame::{Pane, border_cell, paint_window};
use rd_layout::ShownWindow;
use rd_margins::Widths;
use rd_objects::Objects;
use rd_term::Screen;
use rd_ucd::Classes;
use std::alloc::Global;

/// Paints a window over its rectangle of a screen, whose last row is the echo area. Where memory is wanting nothing is painted.
pub(crate) fn paint_leaf(
    screen: &mut Screen,
    alloc: Global,
    classes: &Classes,
    objects: &Objects,
    leaf: &Leaf<'_>,
    shown: &ShownWindow<'_>,
) -> Result<(), Memory>
    requires stands { StandsOn leaf.now.place screen.old.rows }
    requires fits { FitsWindow (width_of screen.old.rows) (pane_in (of_classes classes.now) objects.now leaf.now.content leaf.now.window.now leaf.now.place.rect.width shown.now) leaf.now.place }
    requires view { IsViewOf leaf.now.content.content.text shown.now }
    ensures painted { OnOk result (screen.new ≡ record screen.old { rows = with_rectangle leaf.now.place.rect (window_rows (width_of screen.old.rows) (pane_in (of_classes classes.now) objects.now leaf.now.content leaf.now.window.now leaf.now.place.rect.width shown.now) leaf.now.place) screen.old.rows }) }
{
    let window = leaf.window;
    let content = &leaf.content;
    let settings = &content.buffer.settings;
    let widths = Widths {
        numbers: window.numbers,
        strings: window.strings,
    };
    let margins = WindowMargins {
        alloc,
        classes,
        objects,
        content,
        widths,
    };
    let margins = margins.beside_rows(&shown.layout.matrix)?;
    let mode_line = mode_line(
        alloc,
        classes,
        content,
        shown,
        leaf.place.rect.width,
        &window.format,
    )?;
    let pane = Pane {
        matrix: &shown.layout.matrix,
        margins: &margins,
        border: border_cell(border_slot(objects, settings.table)),
        mode_line: mode_line.as_slice(),
    };
    paint_window(screen, leaf.place, &pane);
    Ok(())
}
