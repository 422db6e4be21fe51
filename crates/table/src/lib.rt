//! The problem as a table of rows: what a draft collects and a sealed table holds.

#![tactic(auto)]

pub mod contents;
pub mod sealed;
mod text;
