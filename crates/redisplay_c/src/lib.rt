//! The redisplay engine for C: the functions that `include/redisplay.h` declares. Each of them is a call of rd_embed's `Embedded` behind a
//! slot, which C keeps and hands to each call; its contract says of what the slot holds what that call's says.
//!
//! A slot is a flag and a word. The word is the pointer of a box, where the flag is set: that the two agree, and that the box is given back
//! once, is proved (`handle`). C owes that nobody else writes the slot or copies it while it is open. docs/C.md lists this and what else a
//! caller owes.
#![tactic(auto)]

mod bytes;
mod giving;
mod handle;
mod object_ops;
mod opening;
mod overlay_ops;
mod reading;
mod screens;
mod showing;
mod text_ops;
mod window_ops;
