//! A sealed table as records, in one order, so that loading them gives the same table again.

#![tactic(auto)]

mod parts;
mod put;
pub mod write;
