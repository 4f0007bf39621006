//! Tests of whole runs: scripts from their bytes to the screen, the report and the status, with every op, with devices that fail at each
//! call, and what redisplays keep. They stand above the crates that they test, so that a crate's own proof and its must-fail edits never
//! wait for them.
#![tactic(auto)]

#[cfg(test)]
mod plays;
