//! Bytes behind bytes: fields, records, and whatever is written as records. Where memory is wanting nothing is said of the bytes.
//!
//! A definition for what a clause says of the lent vector would need it before and after, the result and the bytes, as the clause does;
//! a type round the vector would only hand on to it.
ghost use Rattle.std.specs.Prelude.{◌≡◌, ℕ, List, [], ◌∷◌, ◌++◌, OnOk};
ghost use Rattle.std.specs.List.{flat_map};
ghost use Rattle.records.specs.Bytes.{pair_bytes};
ghost use Rattle.writer.specs.Written.{record_bytes};

use draft::entry::Kind;
use std::alloc::AllocError;
use table::contents::Conditional;

/// What is written: `bytes` says as which bytes.
pub trait Put {
    ghost bytes: { Self → List ℕ };

    fn put(&self, out: &mut Vec<u8>) -> Result<(), AllocError>
        ensures { OnOk result (out.new.items ≡ out.old.items ++ bytes self.now) };
}

/// A field of a record.
impl Put for u16 {
    ghost bytes = { pair_bytes };

    fn put(&self, out: &mut Vec<u8>) -> Result<(), AllocError> {
        out.extend_from_slice(&self.to_le_bytes())
    }
}

/// All of a list, one behind another.
pub(crate) fn put_all<T: Put>(out: &mut Vec<u8>, items: &[T]) -> Result<(), AllocError>
    ensures { OnOk result (out.new.items ≡ out.old.items ++ flat_map T.bytes items.now) }
{
    for x in items {
        x.put(out)?;
    }
    Ok(())
}

/// A record: its length, its kind, its fields, and behind them a value's bytes or a name's letters.
pub(crate) fn put_record(
    out: &mut Vec<u8>,
    kind: Kind,
    fields: &[u16],
    tail: &[u8],
) -> Result<(), AllocError>
    ensures { OnOk result (out.new.items ≡ out.old.items ++ record_bytes kind fields.now tail.now) }
{
    // A lawful problem's records are short; of a longer one the definition takes the two low bytes too.
    let length = 2 + (fields.len() * 2 + tail.len());
    out.extend_from_slice(&length.to_le_bytes()[..2])?;
    u16::from(kind).put(out)?;
    put_all(out, fields)?;
    out.extend_from_slice(tail)
}

/// The record of what has a condition, and behind it what belongs to that.
pub(crate) fn put_owner<T: Put>(
    out: &mut Vec<u8>,
    kind: Kind,
    name: &[u8],
    body: &Conditional<T>,
) -> Result<(), AllocError>
    ensures { OnOk result (out.new.items ≡ out.old.items ++ (record_bytes kind (body.now.condition ∷ []) name.now ++ flat_map T.bytes body.now.parts.items)) }
{
    put_record(out, kind, &[body.condition], name)?;
    put_all(out, body.parts.as_slice())
}
