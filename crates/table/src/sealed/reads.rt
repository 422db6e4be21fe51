//! What a sealed table tells.
ghost use Rattle.std.specs.Prelude.{◌≡◌};
ghost use Rattle.table.specs.Lawful.{Lawful};
ghost use Rattle.table.specs.Seen.{problem_of};

use crate::contents::Contents;
use crate::sealed::Table;

impl Table {
    /// Contents that are lawful as a whole, from now on as they are.
    pub fn new(contents: Contents) -> Table
        requires { Lawful (problem_of contents) }
        ensures { result.problem ≡ problem_of contents }
    {
        Table { contents }
    }

    /// All that the table holds, to read.
    pub fn contents(&self) -> &Contents
        ensures value { problem_of result.now ≡ self.now.problem }
        ensures lawful { Lawful (problem_of result.now) }
    {
        &self.contents
    }
}
