//! One part more of a draft; want of memory leaves the parts as they were. Functions and no methods: `Parts` is another crate's type,
//! and what they promise is said in this crate's words. Each clause says what holds after `Ok` and what after `Err`; a definition would
//! take both as parameters and be no shorter.
ghost use Rattle.std.specs.Prelude.{◌≡◌, ◌<◌, [], ◌∷◌, ◌++◌, is_ok, if◌then◌else◌, vec_len};
ghost use Rattle.table.specs.Seen.{parts_of};
ghost use Rattle.draft.specs.Entered.{on_last, process_with, with_bits, with_numbers, with_processes, with_effect};

use crate::entry::Owner;
use rows::row::{Effect, Rate};
use std::alloc::AllocError;
use table::contents::Parts;

/// This and `push_number` differ in the vector and in the rows' method, which is all that each of them does; one function with both as
/// parameters would be no shorter. They stand apart from `enter`, since between the two calls the counts differ, which the check refuses there.
pub(crate) fn push_bit(parts: &mut Parts, first: bool) -> Result<(), AllocError>
    requires { vec_len parts.old.bits < 64 }
    ensures { parts_of parts.new ≡ (if is_ok result then with_bits (parts.old.bits.items ++ first ∷ []) (parts_of parts.old) else parts_of parts.old) }
{
    parts.bits.push(first)?;
    parts.rows.add_bit();
    Ok(())
}

pub(crate) fn push_number(parts: &mut Parts, first: i32) -> Result<(), AllocError>
    requires { vec_len parts.old.numbers < 32 }
    ensures { parts_of parts.new ≡ (if is_ok result then with_numbers (parts.old.numbers.items ++ first ∷ []) (parts_of parts.old) else parts_of parts.old) }
{
    parts.numbers.push(first)?;
    parts.rows.add_number();
    Ok(())
}

/// An effect goes to the last owner; a process, or no owner, takes none.
pub(crate) fn push_effect(
    parts: &mut Parts,
    owner: Option<Owner>,
    effect: Effect,
) -> Result<(), AllocError>
    ensures { parts_of parts.new ≡ (if is_ok result then with_effect owner effect (parts_of parts.old) else parts_of parts.old) }
{
    match owner {
        Some(Owner::Action) => if let Some(action) = parts.actions.last_mut() {
            action.body.push(effect)?;
        },
        Some(Owner::Event) => if let Some(event) = parts.events.last_mut() {
            event.push(effect)?;
        },
        Some(Owner::Process) | None => {}
    }
    Ok(())
}

/// A rate goes to the last process.
pub(crate) fn push_rate(parts: &mut Parts, rate: Rate) -> Result<(), AllocError>
    ensures { parts_of parts.new ≡ (if is_ok result then with_processes (on_last (process_with rate) (parts_of parts.old).processes) (parts_of parts.old) else parts_of parts.old) }
{
    if let Some(process) = parts.processes.last_mut() {
        process.push(rate)?;
    }
    Ok(())
}
