//! The rule of the claims table, and its three kinds of step: a draw, a cut, a join. They tie the table to the
//! definitions in `specs/Machine`.
use atomic_table::{Join, Play, Split, TableRule};
use std::collections::LinkedList;

/// The number of stripes that are to be claimed, and the number of passes that were opened.
#[derive(Drop)]
pub(crate) struct Plan {
    pub(crate) stripes: u64,
    pub(crate) passes: u64,
}

/// A hand: a number of passes, and the numbers that they found. No value of this type is ever made.
pub(crate) struct Hand {
    pub(crate) stands_for: u64,
    pub(crate) found: LinkedList<u64>,
}

/// What proofs know of a seat of the table: the plan of its claims, and its hand. No value of this type is ever made.
pub(crate) struct View {
    pub(crate) plan: Plan,
    pub(crate) stands_for: u64,
    pub(crate) found: LinkedList<u64>,
}

/// The rule: the word and the hands of all seats together are a state of the machine (a `Moment`) that its steps can reach.
pub(crate) struct Machine;

impl TableRule<(), View, Plan> for Machine {
    ghost use Rattle.std.specs.Prelude.{[]};
    ghost use Rattle.stripe_claims.specs.Machine.{IsKept, hand, view};

    ghost holds = { IsKept };

    ghost first = { λ plan. view plan (hand plan.passes []) };
}

/// One pass draws: it finds the word, which grows by 1.
pub(crate) struct Draws;

impl Play<(), View> for Draws {
    ghost use Rattle.stripe_claims.specs.Machine.{Appends};

    ghost then = { Appends };
}

/// One pass is cut off a hand that has found nothing.
pub(crate) struct Cuts;

impl Split<View> for Cuts {
    ghost use Rattle.stripe_claims.specs.Machine.{one_less, new_pass};

    ghost left = { one_less };

    ghost right = { new_pass };
}

/// One hand takes over all of another.
pub(crate) struct Joins;

impl Join<View> for Joins {
    ghost use Rattle.stripe_claims.specs.Machine.{both_views, spent_view};

    ghost both = { both_views };

    ghost spent = { spent_view };
}
