//! Tests of devices, windows, the terminal and its updates, scripts and states, by the public calls of their layers: results that were
//! worked out elsewhere, printed text, limits, and each allocating call once with ample memory. One file a crate, or a folder of files
//! for its subjects. They stand above the crates that they test, so that a crate's own proof and its must-fail edits never wait for
//! them.
#![tactic(auto)]

/// A row of a table: its name, and what belongs to it. As a plain tuple it would be laid out in a line for each part.
#[cfg(test)]
macro_rules! case {
    ($name:expr => $($part:expr),+) => {
        ($name, $($part),+)
    };
}

#[cfg(test)]
mod claims;
#[cfg(test)]
mod generate;
#[cfg(test)]
mod io;
#[cfg(test)]
mod refused;
#[cfg(test)]
mod scene;
#[cfg(test)]
mod script;
#[cfg(test)]
mod state;
#[cfg(test)]
mod term;
#[cfg(test)]
mod tree;
#[cfg(test)]
mod update;
