// The six kinds of step: load root, raise root, load place, claim place, split and join.
ghost use Rattle.std.specs.Prelude.{ℕ};
ghost use Rattle.program.specs.declared.numbered.Target.TheVariants.{Method};
ghost use Rattle.mega_cache.specs.Region.{About};
ghost use Rattle.mega_cache.specs.Told.{root_loaded, root_raised, place_loaded, place_claimed, same, both, nothing};

use crate::view::MegaView;
use atomic_table::{Join, Play, Split};
use std::marker::{Brand, PhantomData};

/// The program and the selector that a step is about, for contracts alone. A call picks them.
pub trait Named {
    ghost about: { About };

    ghost selector: { ℕ };
}

impl Named for Brand {
    ghost about = { record { classes = 0; selectors = 0; last = 0; resolve = λ _ _. Method (record { 0 = 0 }) } };

    ghost selector = { 0 };
}

pub struct LoadRoot<N> {
    named: PhantomData<N>,
}

impl<N: Named> Play<(), MegaView> for LoadRoot<N> {
    ghost then = { root_loaded N.about N.selector };
}

pub struct RaiseRoot<N> {
    named: PhantomData<N>,
}

impl<N: Named> Play<(), MegaView> for RaiseRoot<N> {
    ghost then = { root_raised N.about N.selector };
}

pub struct LoadPlace<N> {
    named: PhantomData<N>,
}

impl<N: Named> Play<(), MegaView> for LoadPlace<N> {
    ghost then = { place_loaded N.about N.selector };
}

pub struct ClaimPlace<N> {
    named: PhantomData<N>,
}

impl<N: Named> Play<(), MegaView> for ClaimPlace<N> {
    ghost then = { place_claimed N.about N.selector };
}

pub struct SplitPass;

impl Split<MegaView> for SplitPass {
    ghost left = { same };

    ghost right = { same };
}

pub struct JoinPasses;

impl Join<MegaView> for JoinPasses {
    ghost both = { both };

    ghost spent = { nothing };
}
