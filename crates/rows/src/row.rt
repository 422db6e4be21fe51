//! One row of each kind.
//!
//! A row names others by number and does not own them: one row may be named by many, in a file it is named by that number, and it is
//! to be worked out once.

/// A whole number, worked out in a state: a sum, difference or product names two earlier expressions.
#[derive(Clone, Copy, Debug, PartialEq, Eq, Hash)]
pub enum Expression {
    Constant(i32),
    Number(u16),
    Sum(u16, u16),
    Difference(u16, u16),
    Product(u16, u16),
}

/// How an expression is compared with zero.
#[derive(Clone, Copy, Debug, PartialEq, Eq, Hash)]
pub enum Comparison {
    AtMost,
    Less,
    Equal,
    Greater,
    AtLeast,
}

/// What holds or does not hold in a state: not, and and or name earlier formulas.
#[derive(Clone, Copy, Debug, PartialEq, Eq, Hash)]
pub enum Formula {
    True,
    Bit(u16),
    Compare(Comparison, u16),
    Not(u16),
    And(u16, u16),
    Or(u16, u16),
}

/// What an effect does: sets a bit, or changes a number by an expression.
#[derive(Clone, Copy, Debug, PartialEq, Eq, Hash)]
pub enum Change {
    Set(u16, bool),
    Assign(u16, u16),
    Increase(u16, u16),
    Decrease(u16, u16),
}

/// A change that applies where its condition, a formula, holds.
#[derive(Clone, Copy, Debug, PartialEq, Eq, Hash)]
pub struct Effect {
    pub condition: u16,
    pub change: Change,
}

/// A number that rises by an expression with each unit of time.
#[derive(Clone, Copy, Debug, PartialEq, Eq, Hash)]
pub struct Rate {
    pub number: u16,
    pub expression: u16,
}
