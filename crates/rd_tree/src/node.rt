//! The nodes of a window tree.
ghost use Rattle.std.specs.Prelude.{◌≡◌, ◌≤◌, false, length, slice_get, IfOk};
ghost use Rattle.rd_tree.specs.Windows.{HasRoom, InFrame, NeedsMet, FirstPartsFit, columns_needed, rows_needed, first_size, resized, leaves, window_at, holds, is_leaf_of, is_single, first_leaf, sibling, removed, halves, replaced, Window};
ghost use Rattle.rd_tree.specs.Shapes.{shape};

use crate::placed::{Placed, rows_for};
use crate::rect::Rect;
use crate::side::Side;
use rd_base::Memory;
use rd_base::limits::{FRAME_COLUMNS, FRAME_ROWS, LEAST_WINDOW_COLUMNS, WINDOWS};
use std::alloc::Global;
use std::mem;

/// A window: its number, whether it shows a mode line, and the columns of its margins.
#[derive(Clone, Copy)]
pub(crate) struct Leaf {
    number: u32,
    mode: bool,
    margins: u32,
}

/// A window, or a rectangle that is split: its first part, on top or to the left, has `size` rows or columns.
#[derive(Drop)]
pub(crate) enum Node {
    Leaf(Leaf),
    Split {
        side: Side,
        size: u32,
        first: Box<Node>,
        second: Box<Node>,
    },
}

/// The size of the first part where a rectangle is shared anew: the second part has what is left behind the first part's old
/// size, but at least what it needs, and the first part has the rest.
fn first_size(side: Side, size: u32, second: &Node, rect: Rect) -> u32
    requires needs { NeedsMet (shape second.now) rect }
    requires inside { InFrame rect }
    ensures { result ≡ first_size side size (shape second.now) rect }
{
    match side {
        Side::Below => {
            let rest = rect.height.saturating_sub(size);
            rect.height - rest.max(second.rows())
        }
        Side::Right => {
            let rest = rect.width.saturating_sub(size);
            rect.width - rest.max(second.columns())
        }
    }
}

impl Leaf {
    /// The window without its rectangle.
    fn of(window: Placed) -> Leaf
        ensures { result ≡ record { number = window.number; mode = window.mode; margins = window.margins } }
    {
        Leaf {
            number: window.number,
            mode: window.mode,
            margins: window.margins,
        }
    }

    /// The window where it has a rectangle.
    fn placed(&self, rect: Rect) -> Placed
        ensures { result ≡ record { number = self.now.number; mode = self.now.mode; margins = self.now.margins; rect = rect } }
    {
        Placed {
            number: self.number,
            mode: self.mode,
            margins: self.margins,
            rect,
        }
    }
}

impl Node {
    /// The window 0, without a mode line and margins.
    pub(crate) fn opening() -> Node
        ensures { shape result ≡ Window 0 false 0 }
    {
        Node::Leaf(Leaf {
            number: 0,
            mode: false,
            margins: 0,
        })
    }

    /// How many columns the tree's windows need.
    pub(crate) fn columns(&self) -> u32
        requires { columns_needed (shape self.now) ≤ FRAME_COLUMNS }
        ensures { result ≡ columns_needed (shape self.now) }
    {
        match self {
            Node::Leaf(leaf) => LEAST_WINDOW_COLUMNS + leaf.margins,
            Node::Split {
                side,
                first,
                second,
                ..
            } => match side {
                Side::Below => first.columns().max(second.columns()),
                Side::Right => first.columns() + second.columns(),
            },
        }
    }

    /// How many rows the tree's windows need.
    pub(crate) fn rows(&self) -> u32
        requires { rows_needed (shape self.now) ≤ FRAME_ROWS }
        ensures { result ≡ rows_needed (shape self.now) }
    {
        match self {
            Node::Leaf(leaf) => rows_for(leaf.mode),
            Node::Split {
                side,
                first,
                second,
                ..
            } => match side {
                Side::Below => first.rows() + second.rows(),
                Side::Right => first.rows().max(second.rows()),
            },
        }
    }

    /// How many windows the tree has.
    pub(crate) fn count(&self) -> u32
        requires { length (leaves (shape self.now)) ≤ WINDOWS }
        ensures { result ≡ length (leaves (shape self.now)) }
    {
        match self {
            Node::Leaf(_leaf) => 1,
            Node::Split { first, second, .. } => first.count() + second.count(),
        }
    }

    /// The tree's window at a place in order, and None past the last.
    pub(crate) fn leaf(&self, i: u32) -> Option<u32>
        requires { length (leaves (shape self.now)) ≤ WINDOWS }
        ensures { result ≡ slice_get (leaves (shape self.now)) i }
    {
        match self {
            Node::Leaf(leaf) => { if i == 0 { Some(leaf.number) } else { None } }
            Node::Split { first, second, .. } => {
                let count = first.count();
                if i < count {
                    first.leaf(i)
                } else {
                    second.leaf(i - count)
                }
            }
        }
    }

    /// The tree's first window in order.
    pub(crate) fn first_leaf(&self) -> u32
        ensures { result ≡ first_leaf (shape self.now) }
    {
        match self {
            Node::Leaf(leaf) => leaf.number,
            Node::Split { first, .. } => first.first_leaf(),
        }
    }

    /// Whether the tree is one window alone.
    pub(crate) fn is_single(&self) -> bool
        ensures { result ≡ is_single (shape self.now) }
    {
        matches!(self, Node::Leaf(_leaf))
    }

    /// Whether the tree is one window alone, with this number.
    fn is_leaf_of(&self, window: u32) -> bool
        ensures { result ≡ is_leaf_of window (shape self.now) }
    {
        match self {
            Node::Leaf(leaf) => leaf.number == window,
            Node::Split { .. } => false,
        }
    }

    /// Whether one of the tree's windows has this number.
    pub(crate) fn holds(&self, window: u32) -> bool
        ensures { result ≡ holds window (shape self.now) }
    {
        match self {
            Node::Leaf(leaf) => leaf.number == window,
            Node::Split { first, second, .. } => first.holds(window) || second.holds(window),
        }
    }

    /// The window with a number, and its place where all fill a rectangle; None where it is not among them.
    pub(crate) fn find(&self, window: u32, rect: Rect) -> Option<Placed>
        requires room { HasRoom (shape self.now) rect }
        requires inside { InFrame rect }
        ensures { result ≡ window_at window (shape self.now) rect }
    {
        match self {
            Node::Leaf(leaf) => {
                if leaf.number == window {
                    Some(leaf.placed(rect))
                } else {
                    None
                }
            }
            Node::Split {
                side,
                size,
                first,
                second,
            } => match first.find(window, rect.first_part(*side, *size)) {
                None => second.find(window, rect.second_part(*side, *size)),
                found => found,
            },
        }
    }

    /// Lets the tree's windows share another rectangle, which meets their needs. A first part keeps its size where it can.
    pub(crate) fn resize(&mut self, rect: Rect)
        requires parts { FirstPartsFit (shape self.old) }
        requires needs { NeedsMet (shape self.old) rect }
        requires inside { InFrame rect }
        ensures { shape self.new ≡ resized (shape self.old) rect }
    {
        if let Node::Split {
            side,
            size,
            first,
            second,
        } = self
        {
            *size = first_size(*side, *size, second, rect);
            first.resize(rect.first_part(*side, *size));
            second.resize(rect.second_part(*side, *size));
        }
    }

    /// The node of one window.
    pub(crate) fn leaf_of(window: Placed) -> Node
        ensures { shape result ≡ Window window.number window.mode window.margins }
    {
        Node::Leaf(Leaf::of(window))
    }

    /// The node of a window that is split: it keeps the first `size` rows or columns of its rectangle, and a new window, which has its
    /// mode line and its margins, gets the rest.
    pub(crate) fn halves(
        alloc: Global,
        window: Placed,
        side: Side,
        size: u32,
        new: u32,
    ) -> Result<Node, Memory>
        ensures { IfOk result (λ node. shape node ≡ halves window.number side size new window.mode window.margins) }
    {
        let leaf = Leaf::of(window);
        let first = Box::new(alloc, Node::Leaf(leaf))?;
        let other = Leaf {
            number: new,
            ..leaf
        };
        let second = Box::new(alloc, Node::Leaf(other))?;
        Ok(Node::Split {
            side,
            size,
            first,
            second,
        })
    }

    /// Puts another node in place of the window with a number.
    pub(crate) fn replace(&mut self, window: u32, other: Node)
        ensures { shape self.new ≡ replaced window (λ _ _. shape other) (shape self.old) }
    {
        match self {
            Node::Leaf(leaf) => {
                if leaf.number == window {
                    *self = other;
                }
            }
            Node::Split { first, second, .. } => {
                if first.holds(window) {
                    first.replace(window, other);
                } else {
                    second.replace(window, other);
                }
            }
        }
    }

    /// A tree gives way to one of its parts, which takes the whole rectangle; answers the first window of that part.
    fn give_way(&mut self, rest: Node, rect: Rect) -> u32
        requires fills { FirstPartsFit (shape rest) × NeedsMet (shape rest) rect }
        requires inside { InFrame rect }
        ensures shape { shape self.new ≡ resized (shape rest) rect }
        ensures heir { result ≡ first_leaf (shape rest) }
    {
        let heir = rest.first_leaf();
        *self = rest;
        self.resize(rect);
        heir
    }

    /// Takes the window with a number away. Its sibling, which shares a split rectangle with it, takes the rectangle of both. Answers the
    /// first window of the sibling. Nothing changes where the window is alone.
    pub(crate) fn remove(&mut self, window: u32, rect: Rect) -> u32
        requires room { HasRoom (shape self.old) rect }
        requires inside { InFrame rect }
        ensures shape { shape self.new ≡ removed window (shape self.old) rect }
        ensures heir { result ≡ first_leaf (sibling window (shape self.old)) }
    {
        match self {
            Node::Leaf(leaf) => leaf.number,
            Node::Split {
                side,
                size,
                first,
                second,
            } => {
                if first.is_leaf_of(window) {
                    let rest = second.take();
                    self.give_way(rest, rect)
                } else if second.is_leaf_of(window) {
                    let rest = first.take();
                    self.give_way(rest, rect)
                } else if first.holds(window) {
                    first.remove(window, rect.first_part(*side, *size))
                } else {
                    second.remove(window, rect.second_part(*side, *size))
                }
            }
        }
    }

    /// Takes the node out, and leaves a window in its place that is to be given up.
    fn take(&mut self) -> Node
        ensures { result ≡ self.old }
    {
        mem::replace(self, Node::opening())
    }
}
