//! A draft is an unfinished problem: it takes one record after another, and is sealed into a table once its goal has come.

#![tactic(auto)]

pub mod draft;
pub mod entry;
