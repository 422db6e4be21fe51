//! A draft takes what a record says: one part more, the head or the goal.
ghost use Rattle.std.specs.Prelude.{◌≡◌, true, is_ok, if◌then◌else◌};
ghost use Rattle.draft.specs.Entry.{kind};
ghost use Rattle.draft.specs.Questions.{may_stand, has_room, Passes, entry_refused};
ghost use Rattle.draft.specs.Entered.{entered};
ghost use Rattle.draft.specs.Outcome.{Tells, refused_or};
ghost use Rattle.draft.specs.Plain.{plain_entry};

use crate::draft::Draft;
use crate::draft::asks::{expression_depth, formula_depth};
use crate::draft::grows::{push_bit, push_effect, push_number, push_rate};
use crate::entry::{Entry, Owner};
use faults::Fault;
use std::alloc::AllocError;
use table::contents::{Action, Conditional};

impl Draft {
    /// Takes what an entry that passes says; want of memory leaves the draft as it was.
    ///
    /// Arms that are alike, as those of an expression and a formula or of an event and a process, differ in the fields that they name: a
    /// function of both would take these as parameters and be no shorter. The clause says what holds after `Ok` and what after `Err`. A depth is at most 12 here, so `as` loses nothing, as the check proves; `u8::try_from` would need
    /// the same proof for its `unwrap`.
    fn enter(&mut self, entry: Entry<'_>) -> Result<(), AllocError>
        requires { Passes self.old.plain (plain_entry entry) }
        ensures { self.new.plain ≡ (if is_ok result then entered self.old.plain (plain_entry entry.entry) else self.old.plain) }
    {
        let heap = *self.parts.bits.allocator();
        match entry {
            Entry::Head(tick) => self.tick = Some(tick),
            Entry::Bit(first) => {
                push_bit(&mut self.parts, first)?;
            }
            Entry::Number(first) => {
                push_number(&mut self.parts, first)?;
            }
            Entry::Expression(e) => {
                let depth = expression_depth(self.expression_depths.as_slice(), e);
                self.expression_depths.reserve(1)?;
                self.parts.rows.add_expression(e)?;
                self.expression_depths.push_reserved(depth as u8);
            }
            Entry::Formula(f) => {
                let depth = formula_depth(self.formula_depths.as_slice(), f);
                self.formula_depths.reserve(1)?;
                self.parts.rows.add_formula(f)?;
                self.formula_depths.push_reserved(depth as u8);
            }
            Entry::Action { condition, name } => {
                let name = Vec::from_slice(heap, name)?;
                self.parts.actions.push(Action {
                    name,
                    body: Conditional::new(heap, condition),
                })?;
                self.owner = Some(Owner::Action);
            }
            Entry::Event(condition) => {
                self.parts.events.push(Conditional::new(heap, condition))?;
                self.owner = Some(Owner::Event);
            }
            Entry::Process(condition) => {
                self.parts
                    .processes
                    .push(Conditional::new(heap, condition))?;
                self.owner = Some(Owner::Process);
            }
            Entry::Effect(e) => {
                push_effect(&mut self.parts, self.owner, e)?;
                self.effects += 1;
            }
            Entry::Rate(r) => {
                push_rate(&mut self.parts, r)?;
                self.rates += 1;
            }
            Entry::Goal(f) => self.goal = Some(f),
        }
        Ok(())
    }

    /// Takes what a record says, or refuses it and stays as it was. Its kind has been asked for before.
    pub fn admit(&mut self, entry: Entry<'_>) -> Result<(), Fault>
        requires stands { may_stand self.old.plain (kind (plain_entry entry)) ≡ true }
        requires room { has_room self.old.plain (kind (plain_entry entry)) ≡ true }
        ensures { Tells (refused_or (entry_refused self.old.plain (plain_entry entry.entry)) (entered self.old.plain (plain_entry entry.entry))) self.old.plain result self.new.plain }
    {
        self.ask_entry(entry)?;
        Ok(self.enter(entry)?)
    }
}
