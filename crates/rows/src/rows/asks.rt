//! May a row stand behind these?
ghost use Rattle.std.specs.Prelude.{◌≡◌, vec_len};
ghost use Rattle.rows.specs.Range.{in_range};
ghost use Rattle.rows.specs.Lawful.{expression_stands, formula_stands, effect_stands, rate_stands};
ghost use Rattle.rows.specs.Seen.{counts};

use crate::row::{Change, Effect, Expression, Formula, Rate};
use crate::rows::Rows;

/// The greatest value that a number may have; the least is its opposite.
pub const LARGEST: i32 = 1_000_000_000;

/// Whether a value lies in the range of every number.
pub fn in_range(value: i32) -> bool
    ensures { result ≡ in_range value }
{
    (-LARGEST..=LARGEST).contains(&value)
}

impl Rows {
    /// Whether an expression may stand next.
    pub fn expression_stands(&self, expression: Expression) -> bool
        ensures { result ≡ expression_stands self.now.numbers (vec_len self.now.expressions) expression }
    {
        let k = self.expressions.len();
        match expression {
            Expression::Constant(value) => in_range(value),
            Expression::Number(n) => usize::from(n) < self.numbers,
            Expression::Sum(a, b) | Expression::Difference(a, b) | Expression::Product(a, b) =>
                usize::from(a) < k && usize::from(b) < k,
        }
    }

    /// Whether a formula may stand next.
    pub fn formula_stands(&self, formula: Formula) -> bool
        ensures { result ≡ formula_stands self.now.bits (vec_len self.now.expressions) (vec_len self.now.formulas) formula }
    {
        let k = self.formulas.len();
        match formula {
            Formula::True => true,
            Formula::Bit(b) => usize::from(b) < self.bits,
            Formula::Compare(_, e) => usize::from(e) < self.expressions.len(),
            Formula::Not(f) => usize::from(f) < k,
            Formula::And(f, g) | Formula::Or(f, g) => usize::from(f) < k && usize::from(g) < k,
        }
    }

    /// Whether all that an effect names exists.
    pub fn effect_stands(&self, effect: Effect) -> bool
        ensures { result ≡ effect_stands (counts self.now) effect }
    {
        if usize::from(effect.condition) >= self.formulas.len() {
            return false;
        }
        match effect.change {
            Change::Set(b, _) => usize::from(b) < self.bits,
            Change::Assign(n, e) | Change::Increase(n, e) | Change::Decrease(n, e) => usize::from(n)
                < self.numbers
                && usize::from(e) < self.expressions.len(),
        }
    }

    /// Whether all that a rate names exists.
    pub fn rate_stands(&self, rate: Rate) -> bool
        ensures { result ≡ rate_stands (counts self.now) rate }
    {
        usize::from(rate.number) < self.numbers
            && usize::from(rate.expression) < self.expressions.len()
    }
}
