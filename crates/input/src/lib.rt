//! What a program reads of a file: its first 60,000 bytes at the most.

#![tactic(auto)]

ghost use Rattle.std.specs.Prelude.{◌≡◌, take, IfOk, IfSome};

use std::alloc::Global;
use std::io;
use std::io::Read;

/// How many bytes of a file count.
pub const MOST: u64 = 60_000;

/// The first bytes that a reader gives, where it is known which those are; of a file no contract knows that.
pub fn first_bytes<R: Read + Drop>(heap: Global, reader: R) -> io::Result<Vec<u8>>
    ensures { IfOk result (λ bytes. IfSome (R.remaining reader) (λ xs. bytes.items ≡ take 60000 xs)) }
{
    let mut bytes = Vec::new(heap);
    let mut first = reader.take(MOST);
    first.read_to_end(&mut bytes)?;
    Ok(bytes)
}

#[cfg(test)]
mod tests {
    use super::*;
    use std::test::Fail;

    #[test]
    fn no_more_than_count(rt: HostRuntime) -> Result<(), Fail> {
        let long = [7u8; 60_001];
        let bytes = first_bytes(rt.alloc(), &long[..])?;
        assert_eq!(rt; bytes.len(), 60_000);
        assert_eq!(rt; bytes.as_slice() == &long[..60_000], true);
        Ok(())
    }

    #[test]
    fn all_of_a_short_one(rt: HostRuntime) -> Result<(), Fail> {
        let bytes = first_bytes(rt.alloc(), &b"head"[..])?;
        assert_eq!(rt; bytes.as_slice(), b"head".as_slice());
        Ok(())
    }
}
