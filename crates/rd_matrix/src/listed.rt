//! Elements of a line that are held in memory.

use rd_base::{Element, Elements, Memory};
use std::alloc::Global;

/// A line whose elements are given one after the other from a list.
#[derive(Drop)]
pub struct Listed<'a> {
    pub rest: &'a [Element],
}

impl Elements for Listed<'_> {
    ghost left = { λ s. s.rest.now };

    fn next(&mut self, _alloc: Global) -> Result<Option<Element>, Memory> {
        match self.rest {
            [] => Ok(None),
            [first, rest @ ..] => {
                let element = *first;
                self.rest = rest;
                Ok(Some(element))
            }
        }
    }
}
