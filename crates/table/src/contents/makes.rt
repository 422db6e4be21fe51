//! The contents to begin with.
ghost use Rattle.std.specs.Prelude.{◌≡◌, [], ◌∷◌, ◌++◌, is_ok, if◌then◌else◌};
ghost use Rattle.table.specs.Seen.{parts_of, problem_of};
ghost use Rattle.table.specs.Problem.{nothing};

use crate::contents::{Conditional, Contents, Parts};
use rows::rows::Rows;
use std::alloc::{AllocError, Global};

impl Parts {
    /// No part at all.
    pub fn new(heap: Global) -> Parts
        ensures { parts_of result ≡ nothing }
    {
        Parts {
            bits: Vec::new(heap),
            numbers: Vec::new(heap),
            rows: Rows::new(heap),
            actions: Vec::new(heap),
            events: Vec::new(heap),
            processes: Vec::new(heap),
        }
    }
}

impl Contents {
    /// Nothing at all, to be filled by hand: the tick length is not lawful until it is set.
    pub fn new(heap: Global) -> Contents
        ensures { problem_of result ≡ nothing }
    {
        Contents {
            tick: 0,
            parts: Parts::new(heap),
            goal: 0,
        }
    }
}

impl<T> Conditional<T> {
    /// Nothing yet that happens where the condition holds.
    pub fn new(heap: Global, condition: u16) -> Conditional<T>
        ensures condition { result.condition ≡ condition }
        ensures parts { result.parts.items ≡ [] }
    {
        Conditional {
            condition,
            parts: Vec::new(heap),
        }
    }
}

impl<T: Drop> Conditional<T> {
    /// One part more; want of memory leaves those that there are.
    ///
    /// The clause says what holds after `Ok` and what after `Err`; a definition would take both as parameters and be no shorter.
    pub fn push(&mut self, part: T) -> Result<(), AllocError>
        ensures condition { self.new.condition ≡ self.old.condition }
        ensures parts { self.new.parts.items ≡ (if is_ok result then self.old.parts.items ++ part ∷ [] else self.old.parts.items) }
    {
        Ok(self.parts.push(part)?)
    }
}

#[cfg(test)]
mod tests {
    use super::*;
    use rows::row::Rate;
    use std::test::Fail;

    #[test]
    fn parts_stand_in_order(rt: HostRuntime) -> Result<(), Fail> {
        let first = Rate {
            number: 1,
            expression: 2,
        };
        let second = Rate {
            number: 0,
            expression: 7,
        };
        let mut process = Conditional::new(rt.alloc(), 3);
        process.push(first)?;
        process.push(second)?;
        assert_eq!(rt; process.condition, 3);
        assert_eq!(rt; process.parts.as_slice(), [first, second].as_slice());
        Ok(())
    }
}
