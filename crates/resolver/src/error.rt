//! Why a tree is refused.

ghost use Rattle.std.specs.Prelude.{◌≡◌, option_map, Some};
ghost use Rattle.dart_syntax.specs.Syntax as t;
ghost use Rattle.static_rules.specs.Accepted.{failing};
ghost use Rattle.resolver.specs.declared.error.NameError.TheVariants.{NoMemory};
ghost use Rattle.resolver.specs.Refusals.{finding, broken, IsRefusal};

use dart_syntax::token::Span;
use static_rules::{Limit, Rule};
use std::alloc::AllocError;

/// A rule that a tree breaks, at the first place where it does, or a count that is over its limit.
#[derive(Clone, Copy, Debug, PartialEq, Eq)]
pub enum NameError {
    DuplicateName { span: Span },
    UnknownSuper { span: Span },
    CycleInSuper { span: Span },
    SuperIsBuiltin { span: Span },
    UndefinedName { span: Span },
    MixedName { span: Span },
    TearOff { span: Span },
    BadOverride { span: Span },
    AbstractMade { span: Span },
    FinalWritten { span: Span },
    BadReturnPlace { span: Span },
    Shadowed { span: Span },
    WrongArgumentsOfStatic { span: Span },
    LimitReached { what: Limit, count: u64 },
    NoMemory,
}

impl From<AllocError> for NameError {
    ghost from_gives = { λ _ e. e ≡ NoMemory };

    fn from(_: AllocError) -> NameError {
        NameError::NoMemory
    }
}

impl From<ds_base::NoMemory> for NameError {
    ghost from_gives = { λ _ e. e ≡ NoMemory };

    fn from(_: ds_base::NoMemory) -> NameError {
        NameError::NoMemory
    }
}

/// A rule that is broken, and the first place where it is.
#[derive(Clone, Copy, Debug, PartialEq, Eq)]
pub struct Broken {
    pub rule: Rule,
    pub span: Span,
}

/// This rule is broken here.
pub fn finding(rule: Rule, span: Span) -> Option<Broken>
    ensures { option_map finding result ≡ Some (rule, span) }
{
    Some(Broken { rule, span })
}

impl NameError {
    /// The rule that is broken, and where.
    pub fn broken(&self) -> Option<Broken>
        ensures { option_map finding result ≡ broken self.now }
    {
        match *self {
            NameError::DuplicateName { span } => finding(Rule::DuplicateName, span),
            NameError::UnknownSuper { span } => finding(Rule::UnknownSuper, span),
            NameError::CycleInSuper { span } => finding(Rule::CycleInSuper, span),
            NameError::SuperIsBuiltin { span } => finding(Rule::SuperIsBuiltin, span),
            NameError::UndefinedName { span } => finding(Rule::UndefinedName, span),
            NameError::MixedName { span } => finding(Rule::MixedName, span),
            NameError::TearOff { span } => finding(Rule::TearOff, span),
            NameError::BadOverride { span } => finding(Rule::BadOverride, span),
            NameError::AbstractMade { span } => finding(Rule::AbstractMade, span),
            NameError::FinalWritten { span } => finding(Rule::FinalWritten, span),
            NameError::BadReturnPlace { span } => finding(Rule::BadReturnPlace, span),
            NameError::Shadowed { span } => finding(Rule::Shadowed, span),
            NameError::WrongArgumentsOfStatic { span } => finding(
                Rule::WrongArgumentsOfStatic,
                span,
            ),
            NameError::LimitReached { what: _, count: _ } | NameError::NoMemory => None,
        }
    }
}

/// The error of a rule that is broken first.
pub fn error_of(found: Broken) -> NameError
    ensures { (tree : t.Tree) → failing tree ≡ Some (finding found) → IsRefusal tree result }
{
    let span = found.span;
    match found.rule {
        Rule::DuplicateName => NameError::DuplicateName { span },
        Rule::UnknownSuper => NameError::UnknownSuper { span },
        Rule::CycleInSuper => NameError::CycleInSuper { span },
        Rule::SuperIsBuiltin => NameError::SuperIsBuiltin { span },
        Rule::UndefinedName => NameError::UndefinedName { span },
        Rule::MixedName => NameError::MixedName { span },
        Rule::TearOff => NameError::TearOff { span },
        Rule::BadOverride => NameError::BadOverride { span },
        Rule::AbstractMade => NameError::AbstractMade { span },
        Rule::FinalWritten => NameError::FinalWritten { span },
        Rule::BadReturnPlace => NameError::BadReturnPlace { span },
        Rule::Shadowed => NameError::Shadowed { span },
        Rule::WrongArgumentsOfStatic => NameError::WrongArgumentsOfStatic { span },
    }
}
