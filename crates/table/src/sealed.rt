//! A sealed table: every row of it is lawful, and stays so, since nothing of it is ever lent to be changed.
ghost use Rattle.table.specs.Lawful.{Lawful};
ghost use Rattle.table.specs.Seen.{problem_of};

use crate::contents::Contents;
use std::marker::Model;

pub mod reads;

#[derive(Debug, Drop)]
pub struct Table {
    contents: Contents,
    ghost lawful: { Lawful (problem_of contents) },
}

/// A table is seen as the problem that it holds, and that this is lawful.
impl Model for Table {
    ghost use Rattle.table.specs.Sealed.{Sealed};

    ghost Value = { Sealed };

    ghost use Rattle.table.specs.Seen.{problem_of};

    ghost view = { λ t. record { problem = problem_of t.contents; lawful = t.lawful } };
}
