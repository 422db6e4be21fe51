//! A problem as records: a length, a kind and fields, all of them little-endian.

#![tactic(auto)]

mod cut;
mod decode;
pub mod load;
