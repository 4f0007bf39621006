//! `StateParts`, the whole state without its validity.
use crate::buffers::Buffers;
use crate::window::WindowState;
use rd_base::{Ch, ListOf};
use rd_objects::Objects;
use rd_tree::Tree;
use std::marker::Model;

/// The parts of a session's state: the buffers and the objects; the tree that says how the windows share the frame's rows but the
/// last, each window that lives under its number, and the number of the selected one; and what belongs to the whole frame. Each op
/// is a method of it, in the module of its subject.
#[derive(Drop)]
pub(crate) struct StateParts {
    pub buffers: Buffers,
    pub objects: Objects,
    pub tree: Tree,
    pub windows: Vec<(u32, WindowState)>,
    pub selected: u32,
    pub width: u32,
    pub height: u32,
    pub margin: u32,
    pub conservatively: u32,
    pub echo: ListOf<Ch>,
    pub shifting: bool,
}

impl Model for StateParts {
    ghost use Rattle.std.specs.Coded.{codes};
    ghost use Rattle.rd_tree.specs.Codes.{configuration_code};
    ghost use Rattle.rd_state.specs.States.{StateValue, buffers_of, mark_code};

    ghost Value = { StateValue };

    ghost coded = { Prim.hlevel (codes, configuration_code, mark_code) };

    ghost view = { λ p. record {
      buffers = buffers_of p.buffers.entries;
      objects = p.objects;
      tree = p.tree;
      windows = p.windows.items;
      selected = p.selected;
      width = p.width;
      height = p.height;
      margin = p.margin;
      conservatively = p.conservatively;
      echo = p.echo;
      shifting = p.shifting;
    } };
}
