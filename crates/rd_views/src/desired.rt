//! `Desired`, what laying out all windows gives before anything of it is kept: `lay_out` makes it, `shown` says what the windows then
//! show.
ghost use Rattle.std.specs.Prelude.{◌≡◌, ℕ, ◌+◌, ◌≤◌, ◌<◌, ◌++◌, ◌∷◌, [], length, slice_get, IfOk, OnOk, Some, unwrap_or};
ghost use Rattle.rd_layout.specs.Redisplays.{allowed};
ghost use Rattle.rd_layout.specs.Sessions.{layout_of};
ghost use Rattle.rd_layout.specs.Windows.{views_in};
ghost use Rattle.rd_window.specs.declared.layout.Layout.{Layout};
ghost use Rattle.rd_views.specs.Layings.{IsDesired, layout_in, layout_taken, no_layout, views_taken, window_in};

use crate::laying::TextLaying;
use crate::views::Views;
use rd_base::limits::LEAST_TEXT_COLUMNS;
use rd_base::{ListOf, Memory, Steps, Wrap};
use rd_layout::ShownWindow;
use rd_matrix::Matrix;
use rd_reuse::Change;
use rd_rows::Shape;
use rd_start::Chosen;
use rd_window::{Layout, TextEnds};
use std::alloc::Global;
use std::sync::ledger::Ledger;

/// The start and the point that were chosen for a window, where its text begins and ends, and whether it was laid out anew.
#[derive(Clone, Copy)]
pub struct LaidWindow {
    pub chosen: Chosen,
    pub ends: TextEnds,
    pub anew: bool,
}

/// What laying out all windows gave, in leaf order: what was chosen for each, and under its number its new layout, or an empty one
/// where its last layout stays. It has all the memory that adopting it takes.
#[derive(Drop)]
pub struct Desired {
    pub(crate) windows: ListOf<LaidWindow>,
    pub(crate) layouts: Vec<(u32, Layout)>,
}

impl Desired {
    /// Adds what laying out the window with a number gave.
    fn push(&mut self, alloc: Global, number: u32, laid: TextLaying) -> Result<(), Memory>
        ensures windows { OnOk result (self.new.windows ≡ self.old.windows ++ window_in laid ∷ []) }
        ensures layouts { OnOk result (self.new.layouts.items ≡ self.old.layouts.items ++ (number, layout_in laid) ∷ []) }
    {
        let laying = laid.laying;
        self.windows.push(LaidWindow {
            chosen: laying.chosen,
            ends: laid.ends,
            anew: laying.anew.is_some(),
        })?;
        let layout = new_layout(alloc, laying.anew)?;
        self.layouts.push((number, layout))?;
        Ok(())
    }
}

impl Views {
    /// Lays out all windows, each over its last layout, and leaves all as it was. The steps that it takes, also where memory is
    /// wanting, are at most those that a redisplay is allowed.
    pub fn lay_out<L: Ledger>(&self, steps: &mut Steps<L>) -> Result<Desired, Memory>
        ensures desired { IfOk result (λ desired. IsDesired self.now desired) }
        ensures steps { steps.new ≤ steps.old + allowed self.now }
    {
        let mut desired = Desired {
            windows: ListOf::new(self.alloc),
            layouts: Vec::new(self.alloc),
        };
        let mut i = 0;
        while let Some(place) = self.place(i) {
            let laid = self.lay_out_window(place, steps)?;
            desired.push(self.alloc, place.number, laid)?;
            i += 1;
        }
        Ok(desired)
    }

    /// What each window shows once it is adopted, in leaf order.
    pub fn shown<'a>(&'a self, desired: &'a Desired) -> Result<ListOf<ShownWindow<'a>>, Memory>
        requires { IsDesired self.now desired.now }
        ensures { IfOk result (λ windows. windows ≡ views_in self.now.files self.now.state) }
    {
        let mut windows = ListOf::with_room(self.alloc, desired.windows.len())?;
        for i in 0..desired.windows.len() {
            windows.push(self.shown_at(desired, i))?;
        }
        Ok(windows)
    }

    /// The layout that the window at a place in leaf order then has.
    fn layout_at<'a>(&'a self, desired: &'a Desired, window: LaidWindow, i: usize) -> &'a Layout
        requires { i < length desired.now.layouts.items }
        ensures { (e : ℕ × Layout) → slice_get desired.now.layouts.items i ≡ Some e → result.now ≡ layout_taken (layout_of e.0 self.now.layouts) window e.1 }
    {
        let (number, layout) = &desired.layouts[i];
        if window.anew {
            return layout;
        }
        self.layout(*number).unwrap_or(layout)
    }

    /// What the window at a place in leaf order shows.
    fn shown_at<'a>(&'a self, desired: &'a Desired, i: usize) -> ShownWindow<'a>
        requires window { i < length desired.now.windows }
        requires layout { i < length desired.now.layouts.items }
        ensures { slice_get (views_taken self.now.layouts desired.now.windows desired.now.layouts.items) i ≡ Some result }
    {
        let window = desired.windows.at(i);
        ShownWindow {
            chosen: window.chosen,
            layout: self.layout_at(desired, window, i),
            ends: window.ends,
        }
    }
}

/// The new layout of a window, or an empty one where its last layout stays.
fn new_layout(alloc: Global, anew: Option<Layout>) -> Result<Layout, Memory>
    ensures { IfOk result (λ layout. layout ≡ unwrap_or anew no_layout) }
{
    match anew {
        Some(layout) => Ok(layout),
        None => no_layout(alloc),
    }
}

/// A layout of no row.
fn no_layout(alloc: Global) -> Result<Layout, Memory>
    ensures { IfOk result (λ layout. layout ≡ no_layout) }
{
    Ok(Layout {
        matrix: Matrix::new(alloc)?,
        shape: Shape {
            width: LEAST_TEXT_COLUMNS,
            wrap: Wrap::Truncate,
            hscroll: 0,
        },
        height: 0,
        margin: 0,
        conservatively: 0,
        change: Change::none(),
    })
}
