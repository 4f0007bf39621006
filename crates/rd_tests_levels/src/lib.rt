//! Tests of the bidirectional algorithm, by the public calls of their layers: results that were worked out elsewhere,
//! limits, and each allocating call once with ample memory. One file a crate, or a folder of files for its
//! subjects. They stand above the crates that they test, so that a crate's own proof and its must-fail edits never wait for them.
#![tactic(auto)]

#[cfg(test)]
mod brackets;
#[cfg(test)]
mod claims;
#[cfg(test)]
mod explicit;
#[cfg(test)]
mod levels;
#[cfg(test)]
mod order;
#[cfg(test)]
mod resolve;
