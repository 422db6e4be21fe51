//! The rows that conditions and effects are made of: expressions over numbers, formulas over bits and expressions, and what changes a state.
//! A row names other rows by their numbers, which count from 0 in each kind.

#![tactic(auto)]

pub mod row;
pub mod rows;
mod text;
