// States of a call site.
//
//     Unlinked --1--> Mono --2--> Single --5--> Cached --7--> Mega
//                       |         |    ^        ^ |  ^        |  ^
//                       |         +-4--+        | +6-+        +8-+
//                       +-----------3-----------+
//
//     1  the first call
//     2  a second class; each concrete class from the one to the other has the target of the first
//     3  a second class; some concrete class from the one to the other has another target
//     4  a class outside of the range; in the wider range each concrete class has the target still
//     5  a class outside of the range; some concrete class in the wider range has another target
//     6  a class that is not in the row, which has room
//     7  a class that is not in the row, which has four checks
//     8  a class that is not in the table of the site's selector
//
// All but 6 and 8 are transitions, which raise the site's stamp by one.
ghost use Rattle.std.specs.Prelude.{◌≡◌, ◌<◌, ◌↔◌, ℕ, List, IsTrue};
ghost use Rattle.miss_handler.specs.declared.row.Check.{Check};
ghost use Rattle.miss_handler.specs.declared.state.CallState.{CallState};
ghost use Rattle.miss_handler.specs.States.{checks_of, Covers, Explains};
ghost use Rattle.miss_handler.specs.States as spec;

use crate::row::Row;
use program::{ClassId, SiteId, Target};

/// What a call site remembers of the classes that called there.
#[derive(Clone, Copy, Debug, PartialEq, Eq)]
pub enum CallState {
    /// No call yet.
    Unlinked,
    /// One class.
    Mono(ClassId),
    /// Each concrete class from the first to the second has the target.
    Single(ClassId, ClassId, Target),
    /// The classes of the site's row.
    Cached,
    /// The classes of the table of the site's selector.
    Mega,
}

/// What a miss makes of a site: the new state, and the classes to add to its row or, in Mega, to its selector's table.
#[derive(Clone, Copy, Debug, PartialEq, Eq)]
pub struct Advance {
    pub state: CallState,
    pub add_first: Option<ClassId>,
    pub add_second: Option<ClassId>,
}

impl Advance {
    ghost use Rattle.std.specs.Prelude.{None, Some};
    ghost use Rattle.miss_handler.specs.States.{advance};

    /// A state, and nothing to add.
    pub fn to(state: CallState) -> Advance
        ensures { result ≡ advance state None None }
    {
        Advance {
            state,
            add_first: None,
            add_second: None,
        }
    }

    /// A state, and one class to add.
    pub fn adding(state: CallState, c: ClassId) -> Advance
        ensures { result ≡ advance state (Some c) None }
    {
        Advance {
            state,
            add_first: Some(c),
            add_second: None,
        }
    }

    /// A state, and two classes to add.
    pub fn adding_both(state: CallState, first: ClassId, second: ClassId) -> Advance
        ensures { result ≡ advance state (Some first) (Some second) }
    {
        Advance {
            state,
            add_first: Some(first),
            add_second: Some(second),
        }
    }
}

/// What tells the state and the row of each call site.
pub trait SiteStates {
    /// How many sites there are.
    ghost sites: { Self → ℕ };

    ghost state_at: { Self → ℕ → CallState };

    ghost row_at: { Self → ℕ → List Check };

    fn state(&self, site: SiteId) -> CallState
        requires { site.0 < sites self.now }
        ensures { result ≡ state_at self.now site.0 };

    fn row(&self, site: SiteId) -> Row
        requires { site.0 < sites self.now }
        ensures { checks_of result ≡ row_at self.now site.0 };
}

/// Whether the state answers for the class as it stands. In Mega it never does: there the table of the site's selector is asked.
pub fn covers(state: CallState, row: &Row, c: ClassId) -> bool
    ensures covers { IsTrue result ↔ Covers state (checks_of row.now) c.0 }
    ensures test { result ≡ spec.covers state (checks_of row.now) c.0 }
{
    match state {
        CallState::Unlinked | CallState::Mega => false,
        CallState::Mono(a) => c.0 == a.0,
        CallState::Single(lo, hi, _) => lo.0 <= c.0 && c.0 <= hi.0,
        CallState::Cached => row.has(c),
    }
}

/// Whether a site in the state may have had a call on the class.
pub fn explains(state: CallState, c: ClassId) -> bool
    ensures { IsTrue result ↔ Explains state c.0 }
{
    match state {
        CallState::Unlinked => false,
        CallState::Mono(a) => c.0 == a.0,
        CallState::Single(lo, hi, _) => lo.0 <= c.0 && c.0 <= hi.0,
        CallState::Cached | CallState::Mega => true,
    }
}

/// Whether a miss in the state, with this row, is a transition.
pub fn is_transition(state: CallState, row: &Row) -> bool
    ensures { result ≡ spec.moves state (checks_of row.now) }
{
    match state {
        CallState::Unlinked | CallState::Mono(_) | CallState::Single(_, _, _) => true,
        CallState::Cached => row.len() >= 4,
        CallState::Mega => false,
    }
}
