//! Tests of texts, of their paragraphs, of values by position and of searches by lanes, by the public calls of their layers: limits, and
//! each allocating call once with ample memory. One file a crate. They stand above the crates that they test, so that a crate's own proof
//! and its must-fail edits never wait for them.
#![tactic(auto)]

#[cfg(test)]
mod claims;
#[cfg(test)]
mod lanes;
#[cfg(test)]
mod para;
#[cfg(test)]
mod spans;
#[cfg(test)]
mod text;
