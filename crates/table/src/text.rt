//! What has a condition as text: the condition by the number of its formula, and below it each effect or rate in a line of its own.
use crate::contents::{Action, Conditional};
use std::fmt;
use std::str::from_utf8;

impl<T: fmt::Display> fmt::Display for Conditional<T> {
    fn fmt<W: fmt::Write>(&self, f: &mut fmt::Formatter<W>) -> fmt::Result {
        write!(f, "if f{}", self.condition)?;
        for part in &self.parts {
            write!(f, "\n  {part}")?;
        }
        Ok(())
    }
}

impl fmt::Display for Action {
    fn fmt<W: fmt::Write>(&self, f: &mut fmt::Formatter<W>) -> fmt::Result {
        let name = from_utf8(self.name.as_slice()).map_err(|_| fmt::Error)?;
        write!(f, "{name} {}", self.body)
    }
}
