//! What a tree can be refused for.

/// The static rules, in the order in which they are read.
#[derive(Clone, Copy, Debug, PartialEq, Eq)]
pub enum Rule {
    DuplicateName,
    UnknownSuper,
    CycleInSuper,
    SuperIsBuiltin,
    UndefinedName,
    MixedName,
    TearOff,
    BadOverride,
    AbstractMade,
    FinalWritten,
    BadReturnPlace,
    Shadowed,
    WrongArgumentsOfStatic,
}

/// What is counted, in the order in which the counts are looked at.
#[derive(Clone, Copy, Debug, PartialEq, Eq)]
pub enum Limit {
    Classes,
    Methods,
    Functions,
    Selectors,
    Sites,
}
