//! Why a call is refused: one enum with a case for each layer, which holds what that layer tells of the refusal.
//! Upper layers pass a fault on whole, and `?` makes one of want of memory.

#![tactic(auto)]

ghost use Rattle.std.specs.Prelude.{◌≡◌};
ghost use Rattle.faults.specs.declared.Fault.TheVariants.{Memory};
ghost use Rattle.faults.specs.Faults.{number, layer, place, refused, record_fault};

use std::alloc::AllocError;

mod text;

/// The layers that refuse.
#[derive(Clone, Copy, Debug, PartialEq, Eq, Hash)]
pub enum Layer {
    Record,
    Row,
}

/// What is asked of a record as bytes, each with the number of the question.
#[derive(Clone, Copy, Debug, PartialEq, Eq, Hash)]
pub enum RecordQuestion {
    Whole = 1,
    Kind = 2,
    Order = 3,
}

/// What is asked of a record as a row of the problem, each with the number of the question.
#[derive(Clone, Copy, Debug, PartialEq, Eq, Hash)]
pub enum RowQuestion {
    Limit = 4,
    Fields = 5,
    Rows = 6,
    Depth = 7,
    Name = 8,
    Goal = 9,
}

/// The question whose answer was no, and where, counted as its layer counts.
#[derive(Clone, Copy, Debug, PartialEq, Eq, Hash)]
pub struct Refusal<Q> {
    pub question: Q,
    pub place: usize,
}

/// Number, layer and place have a method each, as docs/REFUSALS.md gives a fault these three; one method would return the same three,
/// for each caller to take apart.
///
/// A record is refused as bytes at the offset of its first byte, and as a row at its count among the records, from 1.
/// Want of memory is a case of its own, with no number, layer or place.
#[derive(Clone, Copy, Debug, PartialEq, Eq, Hash)]
pub enum Fault {
    Record(Refusal<RecordQuestion>),
    Row(Refusal<RowQuestion>),
    Memory,
}

impl RecordQuestion {
    /// The fault of a record that begins at this byte, where the answer is no.
    pub fn at(self, place: usize) -> Fault
        ensures { result ≡ record_fault self place }
    {
        Fault::Record(Refusal {
            question: self,
            place,
        })
    }
}

impl From<AllocError> for Fault {
    ghost from_gives = { λ _ f. f ≡ Memory };

    fn from(_e: AllocError) -> Fault {
        Fault::Memory
    }
}

impl Fault {
    /// The number of the question whose answer was no.
    pub fn number(&self) -> Option<u16>
        ensures { result ≡ number self.now }
    {
        match self {
            Fault::Record(refusal) => Some(refusal.question as u16),
            Fault::Row(refusal) => Some(refusal.question as u16),
            Fault::Memory => None,
        }
    }

    /// The layer that refused.
    pub fn layer(&self) -> Option<Layer>
        ensures { result ≡ layer self.now }
    {
        match self {
            Fault::Record(_) => Some(Layer::Record),
            Fault::Row(_) => Some(Layer::Row),
            Fault::Memory => None,
        }
    }

    /// Where it refused, counted as its layer counts.
    pub fn place(&self) -> Option<usize>
        ensures { result ≡ place self.now }
    {
        match self {
            Fault::Record(refusal) => Some(refusal.place),
            Fault::Row(refusal) => Some(refusal.place),
            Fault::Memory => None,
        }
    }

    /// The number and the place of a refusal. Want of memory is none, and is handed on.
    pub fn refused(&self) -> Result<(u16, usize), AllocError>
        ensures { result ≡ refused self.now }
    {
        self.number().zip(self.place()).ok_or(AllocError)
    }
}
