//! Tests of what stands at positions, of items, lines of elements, rows, starts of windows, rows that are used again, hits, motion, margins
//! and mode lines, by the public calls of their layers: results that were worked out elsewhere, printed text, limits, and each allocating
//! call once with ample memory. One file a crate, or a folder of files for its subjects. They stand above the crates that they test, so
//! that a crate's own proof and its must-fail edits never wait for them.
#![tactic(auto)]

#[cfg(test)]
mod blocks;
#[cfg(test)]
mod claims;
#[cfg(test)]
mod glyphs;
#[cfg(test)]
mod items;
#[cfg(test)]
mod margins;
#[cfg(test)]
mod matrix;
#[cfg(test)]
mod modeline;
#[cfg(test)]
mod props;
#[cfg(test)]
mod reuse;
#[cfg(test)]
mod rows;
#[cfg(test)]
mod scenery;
#[cfg(test)]
mod stack;
#[cfg(test)]
mod starts;
#[cfg(test)]
mod texts;
#[cfg(test)]
mod visual;
