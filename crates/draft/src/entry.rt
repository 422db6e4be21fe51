//! What one record says, once its bytes are read.
ghost use Rattle.std.specs.Prelude.{◌≡◌};
ghost use Rattle.draft.specs.Kinds.{code, kind_coded};

use rows::row::{Effect, Expression, Formula, Rate};
use std::error::Error;
use std::fmt;

/// The kinds of records, each with its code.
#[derive(Clone, Copy, Debug, PartialEq, Eq, Hash)]
pub enum Kind {
    Head = 1,
    Bit = 2,
    Number = 3,
    Expression = 4,
    Formula = 5,
    Action = 6,
    Event = 7,
    Process = 8,
    BitEffect = 9,
    NumberEffect = 10,
    Rate = 11,
    Goal = 12,
}

/// A number that is the code of no kind.
#[derive(Clone, Copy, Debug, PartialEq, Eq, Hash)]
pub struct UnknownKind(pub u16);

impl From<Kind> for u16 {
    ghost from_gives = { λ k n. n ≡ code k };

    fn from(kind: Kind) -> u16 {
        kind as u16
    }
}

impl TryFrom<u16> for Kind {
    type Error = UnknownKind;

    ghost try_from_gives = { λ n r. r ≡ kind_coded n };

    fn try_from(code: u16) -> Result<Kind, UnknownKind> {
        match code {
            1 => Ok(Kind::Head),
            2 => Ok(Kind::Bit),
            3 => Ok(Kind::Number),
            4 => Ok(Kind::Expression),
            5 => Ok(Kind::Formula),
            6 => Ok(Kind::Action),
            7 => Ok(Kind::Event),
            8 => Ok(Kind::Process),
            9 => Ok(Kind::BitEffect),
            10 => Ok(Kind::NumberEffect),
            11 => Ok(Kind::Rate),
            12 => Ok(Kind::Goal),
            _ => Err(UnknownKind(code)),
        }
    }
}

impl fmt::Display for UnknownKind {
    fn fmt<W: fmt::Write>(&self, f: &mut fmt::Formatter<W>) -> fmt::Result {
        write!(f, "no kind of record has the code {}", self.0)
    }
}

impl Error for UnknownKind {}

/// What effects and rates belong to.
#[derive(Clone, Copy, Debug, PartialEq, Eq, Hash)]
pub enum Owner {
    Action,
    Event,
    Process,
}

/// What one record says. Contracts see it through `plain_entry`, since an enum can have no model.
#[derive(Clone, Copy, Debug, PartialEq, Eq, Hash)]
pub enum Entry<'a> {
    Head(u16),
    Bit(bool),
    Number(i32),
    Expression(Expression),
    Formula(Formula),
    Action { condition: u16, name: &'a [u8] },
    Event(u16),
    Process(u16),
    Effect(Effect),
    Rate(Rate),
    Goal(u16),
}
