//! Tests of the shared words, of overlays, objects, data files and the words of the command line, by the public calls of their layers:
//! results that were worked out elsewhere, limits, and each allocating call once with ample memory. One file a crate. They stand above the
//! crates that they test, so that a crate's own proof and its must-fail edits never wait for them.
#![tactic(auto)]

#[cfg(test)]
mod base;
#[cfg(test)]
mod claims;
#[cfg(test)]
mod command_line;
#[cfg(test)]
mod objects;
#[cfg(test)]
mod overlays;
#[cfg(test)]
mod ucd;
