//! What stands in a row before the elements of the line.
ghost use Rattle.std.specs.Prelude.{◌≡◌, IfOk};
ghost use Rattle.rd_rows.specs.Placing.{columns_of};
ghost use Rattle.rd_rows.specs.Prefixes.{prefix_of, IsPrefix, IsLead};

use crate::shape::Shape;
use crate::spot::{Placed, width_at};
use rd_base::{Element, ListOf, Memory};
use std::alloc::Global;
use std::marker::Model;

/// The elements of a prefix as they stand at the beginning of a row.
#[derive(Drop)]
pub struct Prefix {
    placed: ListOf<Placed>,
    columns: u64,
}

impl Model for Prefix {
    ghost use Rattle.std.specs.Prelude.{List, ◌≡◌};
    ghost use Rattle.rd_rows.specs.declared.spot.Placed.{Placed};
    ghost use Rattle.rd_rows.specs.Placing.{columns_of};
    ghost use Rattle.rd_rows.specs.Prefixes.{IsLead};

    ghost Value = { List Placed };

    ghost view = { λ p. p.placed };

    ghost invariant = { λ p. (p.columns ≡ columns_of p.placed) × IsLead p.placed };
}

impl Prefix {
    ghost use Rattle.std.specs.Prelude.{◌≡◌, IfOk};
    ghost use Rattle.rd_rows.specs.Placing.{columns_of};
    ghost use Rattle.rd_rows.specs.Prefixes.{prefix_of, IsPrefix, IsLead};

    /// The elements of a prefix as far as they fit whole in half of the window's columns.
    pub fn of(alloc: Global, shape: Shape, elements: &[Element]) -> Result<Prefix, Memory>
        requires { IsPrefix elements.now }
        ensures { IfOk result (λ prefix. prefix ≡ prefix_of shape elements.now) }
    {
        let half = shape.width as u64 / 2;
        let mut placed = ListOf::new(alloc);
        let mut columns = 0u64;
        for element in elements {
            let width = width_at(element.extent, columns);
            if columns + width > half {
                return Ok(Prefix { placed, columns });
            }
            placed.push(Placed {
                element: *element,
                start: columns,
                columns: width,
                first: false,
            })?;
            columns += width;
        }
        Ok(Prefix { placed, columns })
    }

    /// How many columns the prefix takes, at most 200.
    pub fn columns(&self) -> u64
        ensures columns { result ≡ columns_of self.now }
        ensures lead { IsLead self.now }
    {
        self.columns
    }

    /// The prefix's elements, in the order in which they stand.
    pub fn placed(&self) -> &[Placed]
        ensures placed { result.now ≡ self.now }
        ensures lead { IsLead self.now }
    {
        self.placed.as_slice()
    }
}
