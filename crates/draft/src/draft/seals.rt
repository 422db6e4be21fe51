//! A draft begins blank, and is moved into a table once its goal has come.
ghost use Rattle.std.specs.Prelude.{◌≡◌, Some, None, MatchResult};
ghost use Rattle.table.specs.Lawful.{Lawful};
ghost use Rattle.draft.specs.Draft.{blank, sealed};
ghost use Rattle.draft.specs.Questions.{seal_refused};
ghost use Rattle.draft.specs.Lawful.{LawfulDraft};
ghost use Rattle.draft.specs.Outcome.{fault};

use crate::draft::Draft;
use faults::{Fault, RowQuestion};
use std::alloc::Global;
use table::contents::{Contents, Parts};
use table::sealed::Table;

impl Draft {
    /// A draft that has taken no record.
    pub fn blank(heap: Global) -> Draft
        ensures { result.plain ≡ blank }
    {
        Draft {
            tick: None,
            parts: Parts::new(heap),
            goal: None,
            owner: None,
            expression_depths: Vec::new(heap),
            formula_depths: Vec::new(heap),
            effects: 0,
            rates: 0,
        }
    }

    /// Discards all that the draft holds.
    pub fn clear(&mut self)
        ensures { self.new.plain ≡ blank }
    {
        *self = Draft::blank(*self.parts.bits.allocator());
    }

    /// Has the goal come? It moves and changes nothing, and tells that what the draft holds is lawful so far, as it always is.
    pub fn ask_seal(&self) -> Result<(), Fault>
        ensures answer { fault result ≡ seal_refused self.now.plain }
        ensures lawful { LawfulDraft self.now.plain }
    {
        self.ask(self.goal.is_some(), RowQuestion::Goal)
    }

    /// The table of a draft whose goal has come; any other draft is handed back as it was.
    pub fn seal(self) -> Result<Table, Draft>
        ensures { MatchResult result (λ t. (sealed self.plain ≡ Some t.problem) × Lawful t.problem) (λ d. (sealed self.plain ≡ None) × (d ≡ self)) }
    {
        let (Some(tick), Some(goal)) = (self.tick, self.goal) else {
            return Err(self);
        };
        let Draft {
            tick: _,
            parts,
            goal: _,
            owner: _,
            expression_depths: _,
            formula_depths: _,
            effects: _,
            rates: _,
        } = self;
        Ok(Table::new(Contents { tick, parts, goal }))
    }
}
