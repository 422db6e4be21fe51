//! What a problem holds: its tick length, its goal, and its parts, which grow by rows until the goal has come.
ghost use Rattle.std.specs.Prelude.{◌≡◌, vec_len};

use rows::row::{Effect, Rate};
use rows::rows::Rows;

pub mod makes;

/// What happens where a condition, a formula, holds: effects at once, or rates with time.
#[derive(Debug, Drop)]
pub struct Conditional<T> {
    pub condition: u16,
    pub parts: Vec<T>,
}

/// What fires by itself where its condition holds.
pub type Event = Conditional<Effect>;

/// What changes numbers with time while its condition holds.
pub type Process = Conditional<Rate>;

/// What may be done, by name, where its condition holds. The name is bytes, as it is read, compared and
/// written: a `String` would have to be made of them and be taken apart again each time.
#[derive(Debug, Drop)]
pub struct Action {
    pub name: Vec<u8>,
    pub body: Conditional<Effect>,
}

/// `bits` and `numbers` are the first values. How many there are the rows know too (`rows.rt` says why); the two are kept in step.
#[derive(Debug, Drop)]
pub struct Parts {
    pub bits: Vec<bool>,
    pub numbers: Vec<i32>,
    pub rows: Rows,
    pub actions: Vec<Action>,
    pub events: Vec<Event>,
    pub processes: Vec<Process>,
    ghost bits_counted: { rows.bits ≡ vec_len bits },
    ghost numbers_counted: { rows.numbers ≡ vec_len numbers },
}

/// The goal is a formula.
#[derive(Debug, Drop)]
pub struct Contents {
    pub tick: u16,
    pub parts: Parts,
    pub goal: u16,
}
