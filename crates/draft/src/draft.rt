//! The draft. What it holds is lawful at every moment, but for what has not come yet.
ghost use Rattle.draft.specs.Kept.{Keeps};
ghost use Rattle.draft.specs.Drafted.{drafted};

use crate::entry::Owner;
use std::marker::Model;
use table::contents::Parts;

pub mod asks;
pub mod grows;
pub mod seals;
pub mod takes;

/// The head brings the tick length, and the goal comes last.
///
/// The depth of each row stands beside the rows and not in them: a sealed table needs none, and rows with depths would be no plainer, as
/// `seal` would have to copy them out of their vector, and so could fail for want of memory, which it cannot now. How many effects and rates there are over all
/// owners is kept, which is plainer than three sums of lengths with a proof that they fit.
#[derive(Debug, Drop)]
pub struct Draft {
    tick: Option<u16>,
    parts: Parts,
    goal: Option<u16>,
    owner: Option<Owner>,
    expression_depths: Vec<u8>,
    formula_depths: Vec<u8>,
    effects: usize,
    rates: usize,
    ghost keeps: { Keeps (drafted tick parts goal owner) expression_depths.items formula_depths.items effects rates },
}

/// A draft is seen as the problem so far, with what decides which record may come next, and beside it as all that holds this: drafts that
/// are equal are the same in the capacity of each vector too.
impl Model for Draft {
    ghost use Rattle.draft.specs.Held.{Held};

    ghost Value = { Held };

    ghost use Rattle.draft.specs.Seen.{held};

    ghost view = { held };
}
