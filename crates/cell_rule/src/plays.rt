// The steps by what they tell.
ghost use Rattle.cell_rule.specs.About.{About};
ghost use Rattle.cell_rule.specs.Words.{no_target};
ghost use Rattle.cell_rule.specs.Told.{opened, saw_head, saw_data, advanced, finished_with, saw_check, claimed, looked, kept, given, joined, spent, newcomer};
ghost use Rattle.cell_rule.specs.declared.view.View.{View};
ghost use Rattle.std.specs.Prelude.{ℕ, false};

use crate::view::View;
use atomic_table::{Join, Play, Split};
use std::marker::{Brand, PhantomData};

/// What a call is about, for proofs alone. A call at `Brand` picks it.
pub trait Call {
    ghost about: { About };

    ghost site: { ℕ };

    ghost class: { ℕ };

    /// The view before the call.
    ghost start: { View };
}

// Closed terms, which no proof uses.
impl Call for Brand {
    ghost about = { record { sites = 0; classes = 0; at = λ _. record { classes = 0; concrete = λ _. false; resolve = λ _. no_target } } };

    ghost site = { 0 };

    ghost class = { 0 };

    ghost start = { newcomer };
}

/// Load target, at the start of a call.
pub(crate) struct Open<N> {
    named: PhantomData<N>,
}

impl<N: Call> Play<(), View> for Open<N> {
    ghost then = { opened N.about N.site N.class };
}

/// Load target, within a call.
pub(crate) struct LoadTarget<N> {
    named: PhantomData<N>,
}

impl<N: Call> Play<(), View> for LoadTarget<N> {
    ghost then = { saw_head N.about N.site N.class };
}

pub(crate) struct LoadData<N> {
    named: PhantomData<N>,
}

impl<N: Call> Play<(), View> for LoadData<N> {
    ghost then = { saw_data N.about N.site N.class };
}

pub(crate) struct AdvanceData<N> {
    named: PhantomData<N>,
}

impl<N: Call> Play<(), View> for AdvanceData<N> {
    ghost then = { advanced N.about N.site N.class };
}

pub(crate) struct FinishTarget<N> {
    named: PhantomData<N>,
}

impl<N: Call> Play<(), View> for FinishTarget<N> {
    ghost then = { finished_with N.about N.site N.class };
}

pub(crate) struct LoadCheck<N> {
    named: PhantomData<N>,
}

impl<N: Call> Play<(), View> for LoadCheck<N> {
    ghost then = { saw_check N.about N.site N.class };
}

pub(crate) struct ClaimCheck<N> {
    named: PhantomData<N>,
}

impl<N: Call> Play<(), View> for ClaimCheck<N> {
    ghost then = { claimed N.about N.site N.class };
}

/// Load of word 0, which ends a join.
pub(crate) struct Look<N> {
    named: PhantomData<N>,
}

impl<N: Call> Play<(), View> for Look<N> {
    ghost then = { looked N.about };
}

/// A new pass has seen the same, and gets half of the share.
pub(crate) struct Half;

impl Split<View> for Half {
    ghost left = { kept };

    ghost right = { given };
}

/// One pass has what two had.
pub(crate) struct Both;

impl Join<View> for Both {
    ghost both = { joined };

    ghost spent = { spent };
}
