//! Records into a draft: one alone, or a whole file.
ghost use Rattle.std.specs.Prelude.{◌≡◌, Ok, MatchResult};
ghost use Rattle.table.specs.Lawful.{Lawful};
ghost use Rattle.draft.specs.Draft.{blank};
ghost use Rattle.draft.specs.Outcome.{Tells, TellsFile, LeadsTo, Refused};
ghost use Rattle.records.specs.Loaded.{with_record, added, file_taken, finished, loaded, problem_loaded};

use crate::cut::cut;
use crate::decode::{decode, kind_read};
use draft::draft::Draft;
use faults::{Fault, RecordQuestion, RowQuestion};
use std::alloc::Global;
use table::sealed::Table;

/// Takes a record that begins at the byte `at`, or refuses it and leaves the draft as it was. It is given the code and the body and not the
/// `Record`, which is too large for registers and would be copied once more for each record of a file.
fn take(draft: &mut Draft, at: usize, code: u16, body: &[u8]) -> Result<(), Fault>
    ensures { Tells (with_record draft.old.plain at code body.now) draft.old.plain result draft.new.plain }
{
    let Some(kind) = kind_read(code, body.len()) else {
        return Err(RecordQuestion::Kind.at(at));
    };
    draft.ask_kind(kind, at)?;
    let Some(entry) = decode(kind, body) else {
        return Err(draft.row_fault(RowQuestion::Fields));
    };
    draft.admit(entry)
}

/// Add: takes bytes that are one record and nothing else, or refuses them and leaves the draft as it was.
pub fn add(draft: &mut Draft, bytes: &[u8]) -> Result<(), Fault>
    ensures { Tells (added draft.old.plain bytes.now) draft.old.plain result draft.new.plain }
{
    match cut(bytes) {
        Some(record) if record.rest.is_empty() => take(draft, 0, record.code, record.body),
        _ => Err(RecordQuestion::Whole.at(0)),
    }
}

/// Takes one record after another, up to the first that is refused.
fn take_all(draft: &mut Draft, bytes: &[u8]) -> Result<(), Fault>
    ensures { LeadsTo (file_taken draft.old.plain bytes.now) result draft.new.plain }
{
    // A record ends where its length says, so the loop goes over what is left and counts nothing.
    let mut left = bytes;
    while !left.is_empty() {
        let at = bytes.len() - left.len();
        let Some(record) = cut(left) else {
            return Err(RecordQuestion::Whole.at(at));
        };
        take(draft, at, record.code, record.body)?;
        left = record.rest;
    }
    Ok(())
}

/// Takes all records of a file, and asks at the end whether the goal has come.
fn fill(draft: &mut Draft, bytes: &[u8]) -> Result<(), Fault>
    ensures { LeadsTo (finished (file_taken draft.old.plain bytes.now)) result draft.new.plain }
{
    take_all(draft, bytes)?;
    draft.ask_seal()
}

/// Load: discards what the draft held and takes a whole file, or refuses it and leaves a blank draft.
pub fn load(draft: &mut Draft, bytes: &[u8]) -> Result<(), Fault>
    ensures { TellsFile (loaded bytes.now) blank result draft.new.plain }
{
    draft.clear();
    let outcome = fill(draft, bytes);
    if outcome.is_err() {
        draft.clear();
    }
    outcome
}

/// The table of a whole file, loaded and sealed.
pub fn load_table(heap: Global, bytes: &[u8]) -> Result<Table, Fault>
    ensures { MatchResult result (λ t. (problem_loaded bytes.now ≡ Ok t.problem) × Lawful t.problem) (λ f. Refused (problem_loaded bytes.now) f) }
{
    let mut draft = Draft::blank(heap);
    load(&mut draft, bytes)?;
    Ok(draft.seal().unwrap())
}
