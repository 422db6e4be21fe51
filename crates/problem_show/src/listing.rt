//! What a problem holds as text, each row once and on a line of its own. A row is named by a letter and its number:
//! b bits, n numbers, e expressions, f formulas, a actions, v events, p processes.
use std::fmt;
use table::contents::Contents;

#[derive(Clone, Copy, Debug)]
pub struct Listing<'a>(pub &'a Contents);

impl fmt::Display for Listing<'_> {
    fn fmt<W: fmt::Write>(&self, f: &mut fmt::Formatter<W>) -> fmt::Result {
        let c = self.0;
        let p = &c.parts;
        writeln!(f, "tick {}", c.tick)?;
        list(f, "bits", 'b', " = ", p.bits.as_slice())?;
        list(f, "numbers", 'n', " = ", p.numbers.as_slice())?;
        list(f, "expressions", 'e', " = ", p.rows.expressions.as_slice())?;
        list(f, "formulas", 'f', " = ", p.rows.formulas.as_slice())?;
        list(f, "actions", 'a', " ", p.actions.as_slice())?;
        list(f, "events", 'v', " ", p.events.as_slice())?;
        list(f, "processes", 'p', " ", p.processes.as_slice())?;
        writeln!(f, "goal f{}", c.goal)
    }
}

/// A section: how many rows it has, and each row behind its name.
fn list<T: fmt::Display, W: fmt::Write>(
    f: &mut fmt::Formatter<W>,
    heading: &str,
    letter: char,
    between: &str,
    rows: &[T],
) -> fmt::Result {
    writeln!(f, "{heading} {}", rows.len())?;
    for (k, row) in rows.iter().enumerate() {
        writeln!(f, "{letter}{k}{between}{row}")?;
    }
    Ok(())
}
