// Questions about states.
ghost use Rattle.program.specs.Parts.{is_concrete};
ghost use Rattle.miss_handler.specs.declared.state.CallState.TheVariants.{Cached, Mega};
ghost use Rattle.miss_handler.specs.Sites.{receivers_at};
ghost use Rattle.miss_handler.specs.States.{Explains, LawfulState, Move};
ghost use Rattle.cell_rule.specs.About.{state_target};
ghost use Rattle.shared_cells.specs.Runs.{CoversItself};
ghost use Rattle.std.specs.Prelude.{◌≡◌, ◌≢◌, ◌<◌, [], IsTrue, ◌↔◌, MatchBool, length};

use cell_rule::Info;
use ds_base::Steps;
use method_lookup::Linked;
use miss_handler::{CallState, Row, next, selector_at};
use program::{ClassId, MethodId, SiteId, Target};
use std::marker::Brand;
use std::sync::ledger::{Blank, Ledger};

/// Whether the state itself answers for the class, without a row or a table.
pub fn covers_itself(state: CallState, class: ClassId) -> bool
    ensures { IsTrue result ↔ CoversItself state class.0 }
{
    match state {
        CallState::Unlinked | CallState::Cached | CallState::Mega => false,
        CallState::Mono(a) => class.0 == a.0,
        CallState::Single(low, high, _) => low.0 <= class.0 && class.0 <= high.0,
    }
}

pub fn is_cached(state: CallState) -> bool
    ensures { MatchBool result (state ≡ Cached) (state ≢ Cached) }
{
    match state {
        CallState::Cached => true,
        CallState::Unlinked | CallState::Mono(_) | CallState::Single(_, _, _) | CallState::Mega =>
            false,
    }
}

pub fn is_mega(state: CallState) -> bool
    ensures { MatchBool result (state ≡ Mega) (state ≢ Mega) }
{
    match state {
        CallState::Mega => true,
        CallState::Unlinked | CallState::Mono(_) | CallState::Single(_, _, _) | CallState::Cached =>
            false,
    }
}

/// The target of a call at a site, by lookup.
pub fn resolve(linked: &Linked, site: SiteId, class: ClassId) -> Target
    requires site { site.0 < length linked.now.program.sites }
    requires class { class.0 < length linked.now.program.classes }
    ensures { result ≡ (receivers_at linked.now site.0).resolve class.0 }
{
    linked.target_of(class, selector_at(linked, site))
}

fn next_by<L: Ledger>(
    linked: &Linked,
    site: SiteId,
    state: CallState,
    class: ClassId,
    blank: Blank,
) -> CallState
    requires name { blank.name ≡ L.name }
    requires parts { blank.parts ≡ L.parts }
    requires some { 0 < blank.parts }
    requires site { site.0 < length linked.now.program.sites }
    requires concrete { IsTrue (is_concrete linked.now.program.classes class.0) }
    requires lawful { LawfulState (receivers_at linked.now site.0) state }
    requires unexplained { ¬ Explains state class.0 }
    ensures { Move (receivers_at linked.now site.0) state [] class.0 result }
{
    let mut steps = Steps::<L>::begin(blank);
    let row = Row::empty();
    next(linked, site, state, &row, class, &mut steps).state
}

/// The target that goes with a state.
fn target_of(linked: &Linked, site: SiteId, state: CallState) -> Target
    requires site { site.0 < length linked.now.program.sites }
    requires lawful { LawfulState (receivers_at linked.now site.0) state }
    ensures { result ≡ state_target (receivers_at linked.now site.0) state }
{
    match state {
        CallState::Mono(a) => resolve(linked, site, a),
        CallState::Single(_, _, own) => own,
        CallState::Unlinked | CallState::Cached | CallState::Mega => Target::Method(MethodId(0)),
    }
}

/// The transition of a state by a class that it does not explain. Its lookups are counted apart.
pub fn next_info(linked: &Linked, site: SiteId, state: CallState, class: ClassId) -> Info
    requires site { site.0 < length linked.now.program.sites }
    requires concrete { IsTrue (is_concrete linked.now.program.classes class.0) }
    requires lawful { LawfulState (receivers_at linked.now site.0) state }
    requires unexplained { ¬ Explains state class.0 }
    ensures moves { Move (receivers_at linked.now site.0) state [] class.0 result.state }
    ensures target { result.target ≡ state_target (receivers_at linked.now site.0) result.state }
{
    let state = next_by::<Brand>(linked, site, state, class, Blank::new(1));
    Info {
        state,
        target: target_of(linked, site, state),
    }
}
