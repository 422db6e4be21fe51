//! Rows as text. A row that another one names is written by a letter and its number:
//! b for bits, n for numbers, e for expressions, f for formulas.
use crate::row::{Change, Comparison, Effect, Expression, Formula, Rate};
use std::fmt;

impl fmt::Display for Expression {
    fn fmt<W: fmt::Write>(&self, f: &mut fmt::Formatter<W>) -> fmt::Result {
        match self {
            Expression::Constant(value) => write!(f, "{value}"),
            Expression::Number(n) => write!(f, "n{n}"),
            Expression::Sum(a, b) => write!(f, "e{a} + e{b}"),
            Expression::Difference(a, b) => write!(f, "e{a} - e{b}"),
            Expression::Product(a, b) => write!(f, "e{a} * e{b}"),
        }
    }
}

impl fmt::Display for Comparison {
    fn fmt<W: fmt::Write>(&self, f: &mut fmt::Formatter<W>) -> fmt::Result {
        f.write_str(match self {
            Comparison::AtMost => "<=",
            Comparison::Less => "<",
            Comparison::Equal => "=",
            Comparison::Greater => ">",
            Comparison::AtLeast => ">=",
        })
    }
}

impl fmt::Display for Formula {
    fn fmt<W: fmt::Write>(&self, f: &mut fmt::Formatter<W>) -> fmt::Result {
        match self {
            Formula::True => f.write_str("true"),
            Formula::Bit(b) => write!(f, "b{b}"),
            Formula::Compare(comparison, e) => write!(f, "e{e} {comparison} 0"),
            Formula::Not(g) => write!(f, "not f{g}"),
            Formula::And(g, h) => write!(f, "f{g} and f{h}"),
            Formula::Or(g, h) => write!(f, "f{g} or f{h}"),
        }
    }
}

impl fmt::Display for Change {
    fn fmt<W: fmt::Write>(&self, f: &mut fmt::Formatter<W>) -> fmt::Result {
        match self {
            Change::Set(b, to) => write!(f, "b{b} := {to}"),
            Change::Assign(n, e) => write!(f, "n{n} := e{e}"),
            Change::Increase(n, e) => write!(f, "n{n} += e{e}"),
            Change::Decrease(n, e) => write!(f, "n{n} -= e{e}"),
        }
    }
}

impl fmt::Display for Effect {
    fn fmt<W: fmt::Write>(&self, f: &mut fmt::Formatter<W>) -> fmt::Result {
        write!(f, "if f{}: {}", self.condition, self.change)
    }
}

impl fmt::Display for Rate {
    fn fmt<W: fmt::Write>(&self, f: &mut fmt::Formatter<W>) -> fmt::Result {
        write!(f, "n{} changes by e{}", self.number, self.expression)
    }
}
