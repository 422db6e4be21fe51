//! A record as bytes: two bytes for the length of what follows, two for its kind, and its body.
ghost use Rattle.std.specs.Prelude.{◌≡◌};
ghost use Rattle.std.specs.Option.{option_map};
ghost use Rattle.records.specs.Bytes.{first};
ghost use Rattle.records.specs.Seen.{raw};

/// `code` is what the bytes say: it is a kind only once that was asked.
#[derive(Clone, Copy, Debug, PartialEq, Eq, Hash)]
pub struct Record<'a> {
    pub code: u16,
    pub body: &'a [u8],
    pub rest: &'a [u8],
}

/// The record at the front of the bytes, with what follows it, if they begin with a whole one.
pub(crate) fn cut(bytes: &[u8]) -> Option<Record<'_>>
    ensures { option_map raw result ≡ first bytes.now }
{
    let [l0, l1, k0, k1, rest @ ..] = bytes else {
        return None;
    };
    let length = u16::from_le_bytes([*l0, *l1]).checked_sub(2)?;
    let code = u16::from_le_bytes([*k0, *k1]);
    let (body, rest) = rest.split_at_checked(usize::from(length))?;
    Some(Record { code, body, rest })
}
