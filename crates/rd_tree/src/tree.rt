//! The windows of a frame, which share its rows but the last.
use crate::fault::TreeFault;
use crate::laws::windows_tile_their_rectangle;
use crate::node::Node;
use crate::placed::Placed;
use crate::rect::Rect;
use crate::side::Side;
use rd_base::Memory;
use rd_base::limits::{FRAME_COLUMNS, FRAME_ROWS, LEAST_WINDOW_COLUMNS, WINDOWS, WINDOWS_MADE};
use std::alloc::Global;
use std::marker::Model;

/// The windows of a frame. They fill a rectangle of `width` columns and `height` rows, which is the frame's but for its last row,
/// the echo area: whoever makes or resizes a tree hands in the frame's height less one. A window's number counts from 0 in order
/// of making and is never used again.
#[derive(Drop)]
pub struct Tree {
    alloc: Global,
    root: Node,
    width: u32,
    height: u32,
    made: u32,
}

impl Model for Tree {
    ghost use Rattle.rd_tree.specs.Calls.{Configuration, IsValid};
    ghost use Rattle.rd_tree.specs.Codes.{configuration_code};

    ghost Value = { Configuration };

    ghost coded = { configuration_code };

    ghost use Rattle.rd_tree.specs.Held.{configuration_of};

    ghost view = { configuration_of };

    ghost invariant = { λ t. IsValid (configuration_of t) };
}

impl Tree {
    ghost use Rattle.std.specs.Prelude.{◌≡◌, ◌<◌, ◌≤◌, slice_get, IfOk, IfSome, Some};
    ghost use Rattle.rd_tree.specs.Windows.{window_at, leaves, placed, dressed};
    ghost use Rattle.rd_tree.specs.Places.{LiesIn, StandsIn};
    ghost use Rattle.rd_tree.specs.Calls.{opening, frame_of, split_tree, remove_tree, resize_tree, mode_tree, margins_tree, changed_to, rect_of, Answers, Splits, Removes, IsValid};

    /// The window 0, without a mode line and margins, in so many columns and rows: 11 to 400 columns, and 1 to 200 rows.
    pub fn new(alloc: Global, width: u32, height: u32) -> Result<Tree, Memory>
        requires wide { LEAST_WINDOW_COLUMNS ≤ width }
        requires high { 1 ≤ height }
        requires narrow { width ≤ FRAME_COLUMNS }
        requires low { height ≤ FRAME_ROWS }
        ensures { IfOk result (λ tree. tree ≡ opening width height) }
    {
        Ok(Tree {
            alloc,
            root: Node::opening(),
            width,
            height,
            made: 1,
        })
    }

    /// Splits a window: it keeps the first `size` rows or columns of its rectangle, on top or to the left, and a new window gets the rest.
    /// Answers the new window's number, which is the count of windows made so far. The new window shows a mode line where the old one does
    /// and has its margins. The first of these faults counts: NoWindow, where the window does not live; TooSmall, where one of the two
    /// would not have the columns and rows that it needs; TooMany, where 64 windows live or 4,294,967,295 were made. A fault changes
    /// nothing, nor does want of memory.
    #[tactic(auto, using(crate::proofs::Answering::split_unknown))]
    pub fn split(&mut self, window: u32, side: Side, size: u32) -> Result<u32, TreeFault>
        ensures { Splits result (split_tree self.old window side size) self.old self.new }
    {
        let old = self.placed(window).ok_or(TreeFault::NoWindow)?;
        if !old.takes_split(side, size) {
            return Err(TreeFault::TooSmall);
        }
        if self.root.count() >= WINDOWS || self.made == WINDOWS_MADE {
            return Err(TreeFault::TooMany);
        }
        let number = self.made;
        let halves = Node::halves(self.alloc, old, side, size, number)?;
        self.root.replace(window, halves);
        self.made += 1;
        Ok(number)
    }

    /// Takes a window away. Its sibling, the window or windows that share a split rectangle with it, takes the rectangle of both.
    /// Answers the first window of the sibling. The first of these faults counts, and changes nothing: NoWindow, where the window
    /// does not live; LastWindow, where it is the only one.
    #[tactic(auto, unfolding(crate::specs::Calls::remove_tree))]
    pub fn remove(&mut self, window: u32) -> Result<u32, TreeFault>
        ensures { Removes result window (remove_tree self.old window) self.old self.new }
    {
        if !self.root.holds(window) {
            return Err(TreeFault::NoWindow);
        }
        if self.root.is_single() {
            return Err(TreeFault::LastWindow);
        }
        let rect = self.frame();
        Ok(self.root.remove(window, rect))
    }

    /// Lets the windows fill another rectangle. Where a rectangle was split, the second part gets what is behind the first part's old size,
    /// but at least what its windows need, and the first part the rest. TooSmall comes exactly where a need would not be met, and changes
    /// nothing: a window needs 11 columns and those of its margins, and 1 row, 2 with a mode line, and a split rectangle the sum of its
    /// parts along the split and the greater across it.
    #[tactic(auto, unfolding(crate::specs::Calls::resize_tree))]
    pub fn resize(&mut self, width: u32, height: u32) -> Result<(), TreeFault>
        requires narrow { width ≤ FRAME_COLUMNS }
        requires low { height ≤ FRAME_ROWS }
        ensures { Answers result (resize_tree self.old width height) self.old self.new }
    {
        if width < self.root.columns() || height < self.root.rows() {
            return Err(TreeFault::TooSmall);
        }
        self.width = width;
        self.height = height;
        self.root.resize(Rect::whole(width, height));
        Ok(())
    }

    /// Lets a window show a mode line or not. The first of these faults counts, and changes nothing: NoWindow, where the window
    /// does not live; TooSmall, where it has not the 2 rows that it needs with a mode line.
    #[tactic(auto, using(crate::proofs::Answering::found_rect, crate::proofs::Answering::mode_unknown, crate::proofs::Answering::mode_found))]
    pub fn mode(&mut self, window: u32, shown: bool) -> Result<(), TreeFault>
        ensures { Answers result (mode_tree self.old window shown) self.old self.new }
    {
        let old = self.placed(window).ok_or(TreeFault::NoWindow)?;
        self.dress(Placed { mode: shown, ..old })
    }

    /// Lets the margins of a window take so many columns. The first of these faults counts, and changes nothing: NoWindow, where the
    /// window does not live; TooSmall, where it has not the 11 columns that it needs beside those of its margins.
    #[tactic(auto, using(crate::proofs::Answering::found_rect, crate::proofs::Answering::margins_unknown, crate::proofs::Answering::margins_found))]
    pub fn margins(&mut self, window: u32, columns: u32) -> Result<(), TreeFault>
        ensures { Answers result (margins_tree self.old window columns) self.old self.new }
    {
        let old = self.placed(window).ok_or(TreeFault::NoWindow)?;
        self.dress(Placed {
            margins: columns,
            ..old
        })
    }

    /// Gives the window with the number and the rectangle of `window` its mode line and its margins. TooSmall, which changes nothing, comes
    /// exactly where that needs more columns or rows than the rectangle has.
    fn dress(&mut self, window: Placed) -> Result<(), TreeFault>
        requires { rect_of window.number self.old ≡ Some window.rect }
        ensures { Answers result (changed_to self.old (dressed window self.old.windows)) self.old self.new }
    {
        self.trees_are_valid();
        if !window.has_room() {
            return Err(TreeFault::TooSmall);
        }
        self.root.replace(window.number, Node::leaf_of(window));
        Ok(())
    }

    /// The number of the window at a place in leaf order, counted from 0: those of a first part stand before those of
    /// the second. None exactly past the last.
    pub fn leaf(&self, i: u32) -> Option<u32>
        ensures { result ≡ slice_get (leaves self.now.windows) i }
    {
        self.root.leaf(i)
    }

    /// A window's rectangle; None exactly where it does not live.
    pub fn rect(&self, window: u32) -> Option<Rect>
        ensures place { result ≡ rect_of window self.now }
        ensures inside { LiesIn result (frame_of self.now) }
    {
        let placed = self.root.find(window, self.frame())?;
        Some(placed.rect)
    }

    /// A window's mode line, margins and rectangle; None exactly where it does not live.
    pub fn placed(&self, window: u32) -> Option<Placed>
        ensures place { result ≡ window_at window self.now.windows (frame_of self.now) }
        ensures inside { IfSome result (λ placed. StandsIn placed (frame_of self.now)) }
    {
        self.root.find(window, self.frame())
    }

    /// The window at a place in leaf order, counted from 0, with its mode line, margins and rectangle. None exactly past the last.
    pub fn placed_leaf(&self, i: u32) -> Option<Placed>
        ensures place { result ≡ slice_get (placed self.now.windows (frame_of self.now)) i }
        ensures found { IfSome result (λ window. window_at window.number self.now.windows (frame_of self.now) ≡ Some window) }
        ensures inside { IfSome result (λ window. StandsIn window (frame_of self.now)) }
        ensures few { IfSome result (λ _. i < WINDOWS) }
    {
        windows_tile_their_rectangle();
        self.trees_are_valid();
        let number = self.leaf(i)?;
        self.placed(number)
    }

    /// Each tree is valid: each window has the columns and rows that it needs, and its number stands once. The call does nothing.
    pub fn trees_are_valid(&self)
        ensures { IsValid self.now }
    {
        let _root = &self.root;
    }

    /// The rectangle that the windows fill.
    fn frame(&self) -> Rect
        ensures { result ≡ frame_of self.now }
    {
        Rect::whole(self.width, self.height)
    }
}
