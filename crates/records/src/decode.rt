//! What the body of a record says.
ghost use Rattle.std.specs.Prelude.{◌≡◌, ◌+◌, ◌≤◌, true, length, ◌==◌};
ghost use Rattle.std.specs.Option.{option_map};
ghost use Rattle.draft.specs.Plain.{plain_entry};
ghost use Rattle.records.specs.Bytes.{field, value};
ghost use Rattle.records.specs.Kinds.{body_fits, kind_read};
ghost use Rattle.records.specs.Decoded.{flag, expression_read, formula_read, set_read, change_read, decoded, provided};

use draft::entry::{Entry, Kind};
use rows::row::{Change, Comparison, Effect, Expression, Formula, Rate};

/// Whether a body of so many bytes is as long as its kind asks.
fn body_fits(kind: Kind, len: usize) -> bool
    ensures { result ≡ body_fits kind len }
{
    match kind {
        Kind::Head | Kind::Bit | Kind::Event | Kind::Process | Kind::Goal => len == 2,
        Kind::Number | Kind::Rate => len == 4,
        Kind::Expression | Kind::Formula | Kind::BitEffect => len == 6,
        Kind::NumberEffect => len == 8,
        Kind::Action => (3..=26).contains(&len),
    }
}

/// The kind of a record, if its code and the length of its body are right.
pub(crate) fn kind_read(code: u16, len: usize) -> Option<Kind>
    ensures { result ≡ kind_read code len }
{
    let kind = Kind::try_from(code).ok()?;
    body_fits(kind, len).then_some(kind)
}

/// The two bytes at a place of a body.
fn field(body: &[u8], at: usize) -> u16
    requires { at + 2 ≤ length body.now }
    ensures { result ≡ field body.now at }
{
    u16::from_le_bytes([body[at], body[at + 1]])
}

/// The four bytes at a place of a body, which are signed. The library has no one function for both sizes. Fields stand
/// at fixed places of a body, and are read by place where they are used: a slice pattern for each kind would first name every byte.
fn value(body: &[u8], at: usize) -> i32
    requires { at + 4 ≤ length body.now }
    ensures { result ≡ value body.now at }
{
    i32::from_le_bytes([body[at], body[at + 1], body[at + 2], body[at + 3]])
}

/// A function: `TryFrom` cannot be given here to two types of the library's, and a type of our own for a flag would be taken apart at
/// once.
fn flag(n: u16) -> Option<bool>
    ensures { result ≡ flag n }
{
    match n {
        0 => Some(false),
        1 => Some(true),
        _ => None,
    }
}

/// The numbers of operations and ways stand here and in `writer`, and nowhere else: within the program the cases of the enums take
/// their place, and an enum of operations would be one more list of the same.
fn expression(body: &[u8]) -> Option<Expression>
    requires { length body.now ≡ 6 }
    ensures { result ≡ expression_read body.now (field body.now 0) }
{
    let a = field(body, 2);
    let b = field(body, 4);
    match field(body, 0) {
        0 => Some(Expression::Constant(value(body, 2))),
        1 => (b == 0).then_some(Expression::Number(a)),
        2 => Some(Expression::Sum(a, b)),
        3 => Some(Expression::Difference(a, b)),
        4 => Some(Expression::Product(a, b)),
        _ => None,
    }
}

/// A formula that names one row or bit; the second field is not used.
fn alone(formula: Formula, unused: u16) -> Option<Formula>
    ensures { result ≡ provided (unused == 0) formula }
{
    (unused == 0).then_some(formula)
}

/// Numbers of operations, as in `expression`.
fn formula(operation: u16, a: u16, b: u16) -> Option<Formula>
    ensures { result ≡ formula_read operation a b }
{
    match operation {
        0 => (a == 0 && b == 0).then_some(Formula::True),
        1 => alone(Formula::Bit(a), b),
        2 => alone(Formula::Compare(Comparison::AtMost, a), b),
        3 => alone(Formula::Compare(Comparison::Less, a), b),
        4 => alone(Formula::Compare(Comparison::Equal, a), b),
        5 => alone(Formula::Compare(Comparison::Greater, a), b),
        6 => alone(Formula::Compare(Comparison::AtLeast, a), b),
        7 => alone(Formula::Not(a), b),
        8 => Some(Formula::And(a, b)),
        9 => Some(Formula::Or(a, b)),
        _ => None,
    }
}

fn set(bit: u16, to: u16) -> Option<Change>
    ensures { result ≡ set_read bit to }
{
    Some(Change::Set(bit, flag(to)?))
}

/// Numbers of ways, as in `expression`.
fn change(way: u16, number: u16, expression: u16) -> Option<Change>
    ensures { result ≡ change_read way number expression }
{
    match way {
        0 => Some(Change::Assign(number, expression)),
        1 => Some(Change::Increase(number, expression)),
        2 => Some(Change::Decrease(number, expression)),
        _ => None,
    }
}

/// What a body of the right length says, if its operation, way or flag is in its list and its unused fields are zero.
pub(crate) fn decode(kind: Kind, body: &[u8]) -> Option<Entry<'_>>
    requires { body_fits kind (length body.now) ≡ true }
    ensures { option_map plain_entry result ≡ decoded kind body.now }
{
    Some(match kind {
        Kind::Head => Entry::Head(field(body, 0)),
        Kind::Bit => Entry::Bit(flag(field(body, 0))?),
        Kind::Number => Entry::Number(value(body, 0)),
        Kind::Expression => Entry::Expression(expression(body)?),
        Kind::Formula => Entry::Formula(formula(field(body, 0), field(body, 2), field(body, 4))?),
        Kind::Action => Entry::Action {
            condition: field(body, 0),
            name: &body[2..],
        },
        Kind::Event => Entry::Event(field(body, 0)),
        Kind::Process => Entry::Process(field(body, 0)),
        Kind::BitEffect => Entry::Effect(Effect {
            condition: field(body, 0),
            change: set(field(body, 2), field(body, 4))?,
        }),
        Kind::NumberEffect => Entry::Effect(Effect {
            condition: field(body, 0),
            change: change(field(body, 2), field(body, 4), field(body, 6))?,
        }),
        Kind::Rate => Entry::Rate(Rate {
            number: field(body, 0),
            expression: field(body, 2),
        }),
        Kind::Goal => Entry::Goal(field(body, 0)),
    })
}
