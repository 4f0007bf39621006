//! Tests of sessions by their public calls: how many steps their redisplays take. One file a subject. They stand above the crates that they
//! test, so that a crate's own proof and its must-fail edits never wait for them.
#![tactic(auto)]

#[cfg(test)]
mod costs;
#[cfg(test)]
mod sessions;
