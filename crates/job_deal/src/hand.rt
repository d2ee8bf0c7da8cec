//! What a pass knows, and the rule of the counter.
ghost use Rattle.job_deal.specs.Dealt.{Dealt, hand, drew, looked, whole_share};
ghost use Rattle.std.specs.Prelude.{[], ◌+◌, ◌-◌, ◌/◌, ◌++◌};

use atomic_table::{Join, Play, Split, TableRule};
use std::collections::LinkedList;

/// The view of a pass: the numbers that it drew, and its share of the right to know of all draws.
/// No value of it is made.
pub struct Hand {
    pub share: u64,
    pub drawn: LinkedList<u64>,
}

/// The rule of a table of one word, the number of draws.
pub struct Deals;

impl TableRule<(), Hand, ()> for Deals {
    ghost holds = { λ _. Dealt };

    ghost first = { λ _. hand whole_share [] };
}

/// Draws a number: what the word was before it rose by one.
pub(crate) struct Draw;

impl Play<(), Hand> for Draw {
    ghost then = { drew };
}

/// Reads the word, by which the whole share learns of all draws.
pub(crate) struct Look;

impl Play<(), Hand> for Look {
    ghost then = { looked };
}

/// Gives a new pass half of the share, rounded down, and no numbers.
pub(crate) struct Half;

impl Split<Hand> for Half {
    ghost left = { λ v. hand (v.share - v.share / 2) v.drawn };

    ghost right = { λ v. hand (v.share / 2) [] };
}

/// Puts the shares and the numbers of two passes together.
pub(crate) struct Both;

impl Join<Hand> for Both {
    ghost both = { λ v w. hand (v.share + w.share) (v.drawn ++ w.drawn) };

    ghost spent = { hand 0 [] };
}
