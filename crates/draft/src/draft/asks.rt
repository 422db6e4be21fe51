//! What is asked of a record before the draft takes it; nothing is changed by asking.
ghost use Rattle.std.specs.Prelude.{◌≡◌, ◌≤◌, map, None, length, nat_lt, slice_index};
ghost use Rattle.table.specs.Depth.{above, expression_depth, formula_depth};
ghost use Rattle.table.specs.Lawful.{letter, lawful_name, new_name};
ghost use Rattle.table.specs.Seen.{action_of};
ghost use Rattle.draft.specs.Draft.{terms_of, owners_of, records_of};
ghost use Rattle.draft.specs.Questions.{ask, going_on, may_stand, has_room, kind_refused, lawful_fields, rows_stand, shallow, name_is_new, entry_refused, row_fault};
ghost use Rattle.draft.specs.Outcome.{fault};
ghost use Rattle.draft.specs.Plain.{plain_entry};

use crate::draft::Draft;
use crate::entry::{Entry, Kind, Owner};
use faults::{Fault, RecordQuestion, Refusal, RowQuestion};
use rows::row::{Expression, Formula};
use rows::rows::asks::in_range;
use table::contents::Action;

const MOST_BITS: usize = 64;

const MOST_NUMBERS: usize = 32;

const MOST_EXPRESSIONS: usize = 1024;

const MOST_FORMULAS: usize = 1024;

const MOST_ACTIONS: usize = 64;

const MOST_EVENTS: usize = 32;

const MOST_PROCESSES: usize = 32;

const MOST_EFFECTS: usize = 512;

const MOST_RATES: usize = 64;

const LONGEST_TICK: u16 = 1000;

const LONGEST_NAME: usize = 24;

const DEEPEST: u16 = 12;

/// a to z, 0 to 9, hyphen and underscore.
fn is_letter(c: u8) -> bool
    ensures { result ≡ letter c }
{
    matches!(c, b'a'..=b'z' | b'0'..=b'9' | b'-' | b'_')
}

fn is_lawful_name(name: &[u8]) -> bool
    ensures { result ≡ lawful_name name.now }
{
    (1..=LONGEST_NAME).contains(&name.len()) && name.iter().all(|c| is_letter(*c))
}

fn is_new_name(actions: &[Action], name: &[u8]) -> bool
    ensures { result ≡ new_name (map action_of actions.now) name.now }
{
    actions.iter().all(|a| a.name.as_slice() != name)
}

/// The depth of a row over two parts, of which the depths are kept. They are lent as a slice here and below: a draft has two such
/// vectors, and a type of their own would only hand on to the slice.
fn above(depths: &[u8], a: u16, b: u16) -> u16
    ensures { result ≡ above depths.now a b }
{
    let deepest = depth_at(depths, a).max(depth_at(depths, b));
    u16::from(deepest) + 1
}

fn depth_at(depths: &[u8], k: u16) -> u8
    ensures { result ≡ slice_index depths.now k }
{
    depths.get(usize::from(k)).copied().unwrap_or(0)
}

pub(crate) fn expression_depth(depths: &[u8], expression: Expression) -> u16
    ensures { result ≡ expression_depth depths.now expression }
{
    match expression {
        Expression::Constant(_) | Expression::Number(_) => 1,
        Expression::Sum(a, b) | Expression::Difference(a, b) | Expression::Product(a, b) => above(
            depths, a, b,
        ),
    }
}

pub(crate) fn formula_depth(depths: &[u8], formula: Formula) -> u16
    ensures { result ≡ formula_depth depths.now formula }
{
    match formula {
        Formula::True | Formula::Bit(_) | Formula::Compare(_, _) => 1,
        Formula::Not(f) => above(depths, f, f),
        Formula::And(f, g) | Formula::Or(f, g) => above(depths, f, g),
    }
}

/// Whether an entry's values lie in their ranges and its letters are lawful.
fn has_lawful_fields(entry: Entry<'_>) -> bool
    ensures { result ≡ lawful_fields (plain_entry entry.entry) }
{
    match entry {
        Entry::Head(tick) => (1..=LONGEST_TICK).contains(&tick),
        Entry::Number(value) | Entry::Expression(Expression::Constant(value)) => in_range(value),
        Entry::Action { name, .. } => is_lawful_name(name),
        _ => true,
    }
}

impl Draft {
    /// How many bits, numbers, expressions and formulas there are.
    fn rows(&self) -> usize
        ensures value { result ≡ terms_of self.now.plain.problem }
        ensures bound { result ≤ 2144 }
    {
        let p = &self.parts;
        p.bits.len() + p.numbers.len() + p.rows.expressions.len() + p.rows.formulas.len()
    }

    /// How many actions, events and processes there are.
    fn owners(&self) -> usize
        ensures value { result ≡ owners_of self.now.plain.problem }
        ensures bound { result ≤ 128 }
    {
        let p = &self.parts;
        p.actions.len() + p.events.len() + p.processes.len()
    }

    /// How many records the draft has taken.
    fn records(&self) -> usize
        ensures value { result ≡ records_of self.now.plain }
        ensures bound { result ≤ 2850 }
    {
        usize::from(self.tick.is_some())
            + self.rows()
            + self.owners()
            + self.effects
            + self.rates
            + usize::from(self.goal.is_some())
    }

    /// Whether records behind the head and before the goal may come.
    fn is_going_on(&self) -> bool
        ensures { result ≡ going_on self.now.plain }
    {
        self.tick.is_some() && self.goal.is_none()
    }

    /// Effects belong to an action or an event, rates to a process.
    fn may_stand(&self, kind: Kind) -> bool
        ensures { result ≡ may_stand self.now.plain kind }
    {
        match kind {
            Kind::Head => self.tick.is_none(),
            Kind::BitEffect | Kind::NumberEffect => self.is_going_on()
                && matches!(self.owner, Some(Owner::Action | Owner::Event)),
            Kind::Rate => self.is_going_on() && matches!(self.owner, Some(Owner::Process)),
            _ => self.is_going_on(),
        }
    }

    fn has_room(&self, kind: Kind) -> bool
        ensures { result ≡ has_room self.now.plain kind }
    {
        let p = &self.parts;
        match kind {
            Kind::Head | Kind::Goal => true,
            Kind::Bit => p.bits.len() < MOST_BITS,
            Kind::Number => p.numbers.len() < MOST_NUMBERS,
            Kind::Expression => p.rows.expressions.len() < MOST_EXPRESSIONS,
            Kind::Formula => p.rows.formulas.len() < MOST_FORMULAS,
            Kind::Action => p.actions.len() < MOST_ACTIONS,
            Kind::Event => p.events.len() < MOST_EVENTS,
            Kind::Process => p.processes.len() < MOST_PROCESSES,
            Kind::BitEffect | Kind::NumberEffect => self.effects < MOST_EFFECTS,
            Kind::Rate => self.rates < MOST_RATES,
        }
    }

    /// The fault by which the record that comes next is refused.
    pub fn row_fault(&self, question: RowQuestion) -> Fault
        ensures { result ≡ row_fault question self.now.plain }
    {
        Fault::Row(Refusal {
            question,
            place: self.records() + 1,
        })
    }

    /// Refuses the record that comes next by this question, unless the answer is yes.
    pub(crate) fn ask(&self, yes: bool, question: RowQuestion) -> Result<(), Fault>
        ensures { fault result ≡ ask yes (row_fault question self.now.plain) None }
    {
        if yes {
            Ok(())
        } else {
            Err(self.row_fault(question))
        }
    }

    /// What is asked of a record's kind alone, where the record begins at the byte `at`: may it stand here, and is its limit kept?
    pub fn ask_kind(&self, kind: Kind, at: usize) -> Result<(), Fault>
        ensures { fault result ≡ kind_refused self.now.plain at kind }
    {
        if !self.may_stand(kind) {
            return Err(RecordQuestion::Order.at(at));
        }
        self.ask(self.has_room(kind), RowQuestion::Limit)
    }

    /// Whether a formula of this number stands.
    fn has_formula(&self, formula: u16) -> bool
        ensures { result ≡ nat_lt formula (length self.now.plain.problem.formulas) }
    {
        usize::from(formula) < self.parts.rows.formulas.len()
    }

    fn rows_stand(&self, entry: Entry<'_>) -> bool
        ensures { result ≡ rows_stand self.now.plain (plain_entry entry.entry) }
    {
        match entry {
            Entry::Head(_) | Entry::Bit(_) | Entry::Number(_) => true,
            Entry::Expression(e) => self.parts.rows.expression_stands(e),
            Entry::Formula(f) => self.parts.rows.formula_stands(f),
            Entry::Action { condition, .. } | Entry::Event(condition) | Entry::Process(condition) =>
                self.has_formula(condition),
            Entry::Effect(e) => self.parts.rows.effect_stands(e),
            Entry::Rate(r) => self.parts.rows.rate_stands(r),
            Entry::Goal(f) => self.has_formula(f),
        }
    }

    fn is_shallow(&self, entry: Entry<'_>) -> bool
        ensures { result ≡ shallow self.now.plain (plain_entry entry.entry) }
    {
        match entry {
            Entry::Expression(e) => expression_depth(self.expression_depths.as_slice(), e)
                <= DEEPEST,
            Entry::Formula(f) => formula_depth(self.formula_depths.as_slice(), f) <= DEEPEST,
            _ => true,
        }
    }

    fn name_is_new(&self, entry: Entry<'_>) -> bool
        ensures { result ≡ name_is_new self.now.plain (plain_entry entry.entry) }
    {
        match entry {
            Entry::Action { name, .. } => is_new_name(self.parts.actions.as_slice(), name),
            _ => true,
        }
    }

    /// What is asked of what a record says: are its fields lawful, do the rows that it names stand, is it shallow, is its name new?
    pub(crate) fn ask_entry(&self, entry: Entry<'_>) -> Result<(), Fault>
        ensures { fault result ≡ entry_refused self.now.plain (plain_entry entry.entry) }
    {
        self.ask(has_lawful_fields(entry), RowQuestion::Fields)?;
        self.ask(self.rows_stand(entry), RowQuestion::Rows)?;
        self.ask(self.is_shallow(entry), RowQuestion::Depth)?;
        self.ask(self.name_is_new(entry), RowQuestion::Name)
    }
}
