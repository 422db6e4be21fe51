//! Rows grow at their end; a refusal for want of memory leaves them as they were.
ghost use Rattle.std.specs.Prelude.{◌≡◌, ◌<◌, true, is_ok, if◌then◌else◌, vec_len};
ghost use Rattle.rows.specs.Lawful.{expression_stands, formula_stands};
ghost use Rattle.rows.specs.Seen.{plain, blank, with_bit, with_number, with_expression, with_formula};

use crate::row::{Expression, Formula};
use crate::rows::Rows;
use std::alloc::{AllocError, Global};

// `add_bit` and `add_number`, and `add_expression` and `add_formula`, differ in a field alone. Each is one line, and a trait over what
// differs would take two impls to share it. The clauses of the latter two say what holds after `Ok` and what after `Err`; a definition
// would take both as parameters and be no shorter.
impl Rows {
    /// No bits, numbers or rows.
    pub fn new(heap: Global) -> Rows
        ensures { plain result ≡ blank }
    {
        Rows {
            bits: 0,
            numbers: 0,
            expressions: Vec::new(heap),
            formulas: Vec::new(heap),
        }
    }

    /// One bit more that rows may name, which they can up to the 65,536th.
    pub fn add_bit(&mut self)
        requires { self.old.bits < 65536 }
        ensures { plain self.new ≡ with_bit (plain self.old) }
    {
        self.bits += 1;
    }

    /// One number more that rows may name, likewise.
    pub fn add_number(&mut self)
        requires { self.old.numbers < 65536 }
        ensures { plain self.new ≡ with_number (plain self.old) }
    {
        self.numbers += 1;
    }

    pub fn add_expression(&mut self, expression: Expression) -> Result<(), AllocError>
        requires { expression_stands self.old.numbers (vec_len self.old.expressions) expression ≡ true }
        ensures { plain self.new ≡ (if is_ok result then with_expression expression (plain self.old) else plain self.old) }
    {
        Ok(self.expressions.push(expression)?)
    }

    pub fn add_formula(&mut self, formula: Formula) -> Result<(), AllocError>
        requires { formula_stands self.old.bits (vec_len self.old.expressions) (vec_len self.old.formulas) formula ≡ true }
        ensures { plain self.new ≡ (if is_ok result then with_formula formula (plain self.old) else plain self.old) }
    {
        Ok(self.formulas.push(formula)?)
    }
}
