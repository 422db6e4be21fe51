//! Expressions and formulas in the order in which they may be worked out: each names earlier rows only, and bits and numbers that exist.
ghost use Rattle.std.specs.Prelude.{◌≡◌, true, vec_len};
ghost use Rattle.rows.specs.Lawful.{lawful_expressions, lawful_formulas};

use crate::row::{Expression, Formula};

pub mod adds;
pub mod asks;

/// The fields are there for all to read, so contracts name them and there is no model; `plain` is what grows.
///
/// How many bits and numbers there are is a count: rows ask only whether what they name is below it. A vector of first values in its place
/// would be no plainer: its length alone would be read here, and `add_bit` and `add_number` would need memory.
#[derive(Debug, Drop)]
pub struct Rows {
    pub bits: usize,
    pub numbers: usize,
    pub expressions: Vec<Expression>,
    pub formulas: Vec<Formula>,
    ghost lawful_expressions: { lawful_expressions numbers expressions.items ≡ true },
    ghost lawful_formulas: { lawful_formulas bits (vec_len expressions) formulas.items ≡ true },
}
