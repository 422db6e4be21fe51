//! The writer of a table.
ghost use Rattle.std.specs.Prelude.{◌≡◌, IfOk, Ok};
ghost use Rattle.records.specs.Loaded.{problem_loaded};
ghost use Rattle.writer.specs.Laws.{EveryLawfulProblemLoadsBack};
ghost use Rattle.writer.specs.Written.{written};

use crate::put::Put;
use std::alloc::{AllocError, Global};
use table::sealed::Table;

/// The table as records: head, bits, numbers, expressions, formulas, actions with their effects, events with theirs,
/// processes with their rates, and the goal. What is written is loaded and sealed as this very table.
pub fn write(heap: Global, table: &Table) -> Result<Vec<u8>, AllocError>
    ensures bytes { IfOk result (λ v. v.items ≡ written table.now.problem) }
    ensures loads_back { IfOk result (λ v. problem_loaded v.items ≡ Ok table.now.problem) }
    ensures law { EveryLawfulProblemLoadsBack }
{
    let mut out = Vec::new(heap);
    table.contents().put(&mut out)?;
    Ok(out)
}
