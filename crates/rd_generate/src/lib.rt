//! A script of many ops, made from a number.
//!
//! The rules are in docs/RULES.md, "Generated scripts".
#![tactic(auto)]

mod examples;
mod lines;
mod template;

pub use lines::generated;
