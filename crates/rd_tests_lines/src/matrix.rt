//! Matrices, with ample memory.
ghost use Rattle.std.specs.Prelude.{◌≡◌, []};

use rd_base::Memory;
use rd_matrix::{Entry, Matrix};
use rd_rows::Row;
use std::alloc::Global;
use std::process::Abort;
use std::test::Fail;

/// Adds a blank row of the block at position 7.
fn add_blank(matrix: &mut Matrix, alloc: Global) -> Result<(), Memory>
    requires { matrix.old ≡ [] }
{
    let row = Row::blank(alloc, 12)?;
    matrix.push(Entry {
        start: 7,
        number: 0,
        row,
    })
}

/// Asserts that a matrix of no row takes that row, in which nothing is shown.
fn assert_added(rt: &impl Abort, alloc: Global, matrix: &mut Matrix)
    requires { matrix.old ≡ [] }
{
    assert!(rt; add_blank(matrix, alloc).is_ok());
    assert!(rt; matrix.len() == 1);
    assert!(rt; matrix.cursor(7).is_none());
    assert!(rt; !matrix.shows(7));
}

#[test]
fn rows_are_added_and_sought(rt: HostRuntime) -> Result<(), Fail> {
    let mut matrix = Matrix::new(rt.alloc())?;
    assert_added(&rt, rt.alloc(), &mut matrix);
    Ok(())
}
