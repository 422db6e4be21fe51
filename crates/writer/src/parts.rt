//! Each part of a problem as records.
ghost use Rattle.std.specs.Prelude.{◌≡◌};
ghost use Rattle.writer.specs.Parts.{bit_bytes, number_bytes, expression_bytes, formula_bytes, effect_bytes, rate_bytes, action_bytes, event_bytes, process_bytes, contents_bytes};
ghost use Rattle.writer.specs.Written.{comparison_number};

use crate::put::{Put, put_all, put_owner, put_record};
use draft::entry::Kind;
use rows::row::{Change, Comparison, Effect, Expression, Formula, Rate};
use std::alloc::AllocError;
use table::contents::{Action, Contents, Event, Process};

/// A bit by its first value.
impl Put for bool {
    ghost bytes = { bit_bytes };

    fn put(&self, out: &mut Vec<u8>) -> Result<(), AllocError> {
        put_record(out, Kind::Bit, &[u16::from(*self)], &[])
    }
}

/// A number by its first value.
impl Put for i32 {
    ghost bytes = { number_bytes };

    fn put(&self, out: &mut Vec<u8>) -> Result<(), AllocError> {
        put_record(out, Kind::Number, &[], &self.to_le_bytes())
    }
}

/// The numbers of operations, here and below, are those that `records` reads (`decode.rt` says why they are no enum).
impl Put for Expression {
    ghost bytes = { expression_bytes };

    fn put(&self, out: &mut Vec<u8>) -> Result<(), AllocError> {
        let fields = match *self {
            Expression::Constant(value) => {
                return put_record(out, Kind::Expression, &[0], &value.to_le_bytes());
            }
            Expression::Number(n) => [1, n, 0],
            Expression::Sum(a, b) => [2, a, b],
            Expression::Difference(a, b) => [3, a, b],
            Expression::Product(a, b) => [4, a, b],
        };
        put_record(out, Kind::Expression, &fields, &[])
    }
}

/// Comparisons are the operations of a formula from 2 on, in their order.
fn comparison_number(comparison: Comparison) -> u16
    ensures { result ≡ comparison_number comparison }
{
    2 + comparison as u16
}

impl Put for Formula {
    ghost bytes = { formula_bytes };

    fn put(&self, out: &mut Vec<u8>) -> Result<(), AllocError> {
        let fields = match *self {
            Formula::True => [0, 0, 0],
            Formula::Bit(b) => [1, b, 0],
            Formula::Compare(how, e) => [comparison_number(how), e, 0],
            Formula::Not(f) => [7, f, 0],
            Formula::And(f, g) => [8, f, g],
            Formula::Or(f, g) => [9, f, g],
        };
        put_record(out, Kind::Formula, &fields, &[])
    }
}

/// Numbers of ways, likewise.
impl Put for Effect {
    ghost bytes = { effect_bytes };

    fn put(&self, out: &mut Vec<u8>) -> Result<(), AllocError> {
        let condition = self.condition;
        let (way, n, e) = match self.change {
            Change::Set(b, to) => {
                return put_record(out, Kind::BitEffect, &[condition, b, u16::from(to)], &[]);
            }
            Change::Assign(n, e) => (0, n, e),
            Change::Increase(n, e) => (1, n, e),
            Change::Decrease(n, e) => (2, n, e),
        };
        put_record(out, Kind::NumberEffect, &[condition, way, n, e], &[])
    }
}

impl Put for Rate {
    ghost bytes = { rate_bytes };

    fn put(&self, out: &mut Vec<u8>) -> Result<(), AllocError> {
        put_record(out, Kind::Rate, &[self.number, self.expression], &[])
    }
}

/// This and the two below differ in the kind and are one line each; a trait that tells the kind would take as many impls.
impl Put for Action {
    ghost bytes = { action_bytes };

    fn put(&self, out: &mut Vec<u8>) -> Result<(), AllocError> {
        put_owner(out, Kind::Action, self.name.as_slice(), &self.body)
    }
}

impl Put for Event {
    ghost bytes = { event_bytes };

    fn put(&self, out: &mut Vec<u8>) -> Result<(), AllocError> {
        put_owner(out, Kind::Event, &[], self)
    }
}

impl Put for Process {
    ghost bytes = { process_bytes };

    fn put(&self, out: &mut Vec<u8>) -> Result<(), AllocError> {
        put_owner(out, Kind::Process, &[], self)
    }
}

/// The whole in its order: head, bits, numbers, expressions, formulas, actions with their effects, events with theirs,
/// processes with their rates, and the goal.
impl Put for Contents {
    ghost bytes = { contents_bytes };

    fn put(&self, out: &mut Vec<u8>) -> Result<(), AllocError> {
        let p = &self.parts;
        put_record(out, Kind::Head, &[self.tick], &[])?;
        put_all(out, p.bits.as_slice())?;
        put_all(out, p.numbers.as_slice())?;
        put_all(out, p.rows.expressions.as_slice())?;
        put_all(out, p.rows.formulas.as_slice())?;
        put_all(out, p.actions.as_slice())?;
        put_all(out, p.events.as_slice())?;
        put_all(out, p.processes.as_slice())?;
        put_record(out, Kind::Goal, &[self.goal], &[])
    }
}
