// The words of a site as numbers.
//
// | word        | 63 .. 48 | 47 .. 43 | 42 .. 40 | 39 .. 28 | 27 .. 16 | 15 .. 0           |
// |-------------|----------|----------|----------|----------|----------|-------------------|
// | data word   | stamp    | 0        | kind     | low      | high     | target            |
// | target word | stamp    | 0        | 0        | 0        | stub     | target            |
// | check       | 0        | 0        | 0        | bit 32   | class    | target            |
//
// In a target, bits 0 to 14 are the method and bit 15 says that it is the receiver's `noSuchMethod`.
// The stub takes bits 16 to 18. An empty check is 0.
ghost use Rattle.cell_rule.specs.Words.{SaysData, SaysTarget, SaysCheck, GoesWith, data_word, target_word, check_word, info, entry, entry_of, entry_at, DataFits, TargetFits, CheckFits, StateFits, StubFits, IsDataWord, IsTargetWord, IsCheckWord, IsSmall, target_field, kind_of, low_of, high_of, stub_number};
ghost use Rattle.cell_rule.specs.Unpacked.{target_from, state_from, stub_from};
ghost use Rattle.std.specs.Prelude.{◌≡◌, ℕ, ◌<◌, IsTrue, ◌↔◌, MatchOption};

use miss_handler::{CallState, Check};
use program::{ClassId, MethodId, Target};

// How many values each part has room for.
const TARGETS: u64 = 0x1_0000;

const CLASSES: u64 = 0x1000;

const KINDS: u64 = 0x100;

const STUBS: u64 = 0x1_0000_0000;

/// What a call enters.
#[derive(Clone, Copy, Debug, PartialEq, Eq)]
pub enum Stub {
    Miss,
    CheckedEntry,
    Single,
    Cached,
    Mega,
}

/// What a data word says beside its stamp.
#[derive(Clone, Copy, Debug, PartialEq, Eq)]
pub struct Info {
    pub state: CallState,
    pub target: Target,
}

/// What a target word says beside its stamp.
#[derive(Clone, Copy, Debug, PartialEq, Eq)]
pub struct Entry {
    pub stub: Stub,
    pub target: Target,
}

fn field(target: Target) -> u64
    requires { IsSmall target }
    ensures { (result ≡ target_field target) × (result < 65536) }
{
    match target {
        Target::Method(m) => m.0 as u64,
        Target::Nsm(m) => 32768 + m.0 as u64,
    }
}

/// The kind of a state, and its least and greatest class.
fn parts(state: CallState) -> (u64, u64, u64)
    ensures kind { result.0 ≡ kind_of state }
    ensures low { result.1 ≡ low_of state }
    ensures high { result.2 ≡ high_of state }
{
    match state {
        CallState::Unlinked => (0, 0, 0),
        CallState::Mono(a) => (1, a.0 as u64, a.0 as u64),
        CallState::Single(low, high, _) => (2, low.0 as u64, high.0 as u64),
        CallState::Cached => (3, 0, 0),
        CallState::Mega => (4, 0, 0),
    }
}

/// The data word of a state with its target, at a stamp.
#[tactic(auto, unfolding(crate::specs::Words::data_word))]
pub fn pack_data(stamp: u16, state: CallState, t: Target) -> u64
    requires { DataFits stamp (info state t) }
    ensures { result ≡ data_word stamp (info state t) }
{
    let (kind, low, high) = parts(state);
    (((stamp as u64 * KINDS + kind) * CLASSES + low) * CLASSES + high) * TARGETS + field(t)
}

fn number(stub: Stub) -> u64
    ensures { (result ≡ stub_number stub) × (result < 5) }
{
    match stub {
        Stub::Miss => 0,
        Stub::CheckedEntry => 1,
        Stub::Single => 2,
        Stub::Cached => 3,
        Stub::Mega => 4,
    }
}

/// The target word of a stub with its target, at a stamp.
#[tactic(auto, unfolding(crate::specs::Words::target_word))]
pub fn pack_target(stamp: u16, stub: Stub, t: Target) -> u64
    requires { TargetFits stamp (entry stub t) }
    ensures { result ≡ target_word stamp (entry stub t) }
{
    (stamp as u64 * STUBS + number(stub)) * TARGETS + field(t)
}

fn target_in(field: u16) -> Target
    ensures { (result ≡ target_from field) × IsSmall result }
{
    if field < 32768 {
        Target::Method(MethodId(field))
    } else {
        Target::Nsm(MethodId(field - 32768))
    }
}

#[tactic(auto, unfolding(crate::specs::Unpacked::state_from))]
fn state_in(kind: u64, low: u16, high: u16, target: Target) -> CallState
    ensures { result ≡ state_from kind low high target }
{
    match kind {
        0 => CallState::Unlinked,
        1 => CallState::Mono(ClassId(low)),
        2 => CallState::Single(ClassId(low), ClassId(high), target),
        3 => CallState::Cached,
        _ => CallState::Mega,
    }
}

/// Whether a data word can hold them.
fn fits_data(state: CallState, t: Target) -> bool
    ensures { IsTrue result ↔ StateFits state t }
{
    match state {
        CallState::Unlinked | CallState::Cached | CallState::Mega => t
            == Target::Method(MethodId(0)),
        CallState::Mono(a) => a.0 < 4096,
        CallState::Single(low, high, own) => low.0 < 4096 && high.0 < 4096 && t == own,
    }
}

/// The stamp, the state and the target of a data word. None for what is no packed one.
pub fn unpack_data(word: u64) -> Option<(u16, CallState, Target)>
    ensures { MatchOption result (¬ IsDataWord word) (SaysData word) }
{
    let target = target_in((word % TARGETS) as u16);
    let high = (word / TARGETS % CLASSES) as u16;
    let low = (word / (TARGETS * CLASSES) % CLASSES) as u16;
    let kind = word / (TARGETS * CLASSES * CLASSES) % KINDS;
    let state = state_in(kind, low, high, target);
    let stamp = (word / (TARGETS * STUBS)) as u16;
    if fits_data(state, target) && pack_data(stamp, state, target) == word {
        Some((stamp, state, target))
    } else {
        None
    }
}

#[tactic(auto, unfolding(crate::specs::Unpacked::stub_from))]
fn stub_in(number: u64) -> Stub
    ensures { result ≡ stub_from number }
{
    match number {
        0 => Stub::Miss,
        1 => Stub::CheckedEntry,
        2 => Stub::Single,
        3 => Stub::Cached,
        _ => Stub::Mega,
    }
}

/// Whether a target word can hold them.
fn fits_target(stub: Stub, t: Target) -> bool
    ensures { IsTrue result ↔ StubFits stub t }
{
    match stub {
        Stub::CheckedEntry => true,
        Stub::Miss | Stub::Single | Stub::Cached | Stub::Mega => t == Target::Method(MethodId(0)),
    }
}

/// The stamp, the stub and the target of a target word. None for what is no packed one.
pub fn unpack_target(word: u64) -> Option<(u16, Stub, Target)>
    ensures { MatchOption result (¬ IsTargetWord word) (SaysTarget word) }
{
    let target = target_in((word % TARGETS) as u16);
    let stub = stub_in(word / TARGETS % STUBS);
    let stamp = (word / (TARGETS * STUBS)) as u16;
    if fits_target(stub, target) && pack_target(stamp, stub, target) == word {
        Some((stamp, stub, target))
    } else {
        None
    }
}

/// What the target word says that goes with a state and its target.
pub fn entry_for(state: CallState, t: Target) -> Entry
    ensures { result ≡ entry_at state t }
{
    let none = Target::Method(MethodId(0));
    match state {
        CallState::Unlinked => Entry {
            stub: Stub::Miss,
            target: none,
        },
        CallState::Mono(_) => Entry {
            stub: Stub::CheckedEntry,
            target: t,
        },
        CallState::Single(_, _, _) => Entry {
            stub: Stub::Single,
            target: none,
        },
        CallState::Cached => Entry {
            stub: Stub::Cached,
            target: none,
        },
        CallState::Mega => Entry {
            stub: Stub::Mega,
            target: none,
        },
    }
}

/// The target word that goes with a data word.
pub fn target_of(word: u64) -> u64
    requires { IsDataWord word }
    ensures { GoesWith word result }
{
    match unpack_data(word) {
        Some((stamp, state, t)) => {
            let Entry { stub, target } = entry_for(state, t);
            pack_target(stamp, stub, target)
        }
        None => unreachable!(),
    }
}

/// A check as a word.
#[tactic(auto, unfolding(crate::specs::Words::check_word))]
pub fn pack_check(check: Check) -> u64
    requires { CheckFits check }
    ensures { result ≡ check_word check }
{
    (0x1_0000 + check.class.0 as u64) * TARGETS + field(check.target)
}

/// The check of a word. None for what is no check that is set, as an empty one.
pub fn unpack_check(word: u64) -> Option<Check>
    ensures { MatchOption result (¬ IsCheckWord word) (SaysCheck word) }
{
    let target = target_in((word % TARGETS) as u16);
    let class = ClassId((word / TARGETS % CLASSES) as u16);
    let check = Check { class, target };
    if pack_check(check) == word {
        Some(check)
    } else {
        None
    }
}
