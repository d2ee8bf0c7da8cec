// The lines of what a tree is refused for.
ghost use Rattle.std.specs.Prelude.{◌≡◌, ◌≤◌, length, IfOk};
ghost use Rattle.static_rules.specs.Accepted.{most};
ghost use Rattle.dart_sites.specs.Refusals.{rule_name, rule_line, limit_name, limit_line, entry_line};

use crate::places::push_place;
use byte_texts::{push, push_number};
use ds_base::NoMemory;
use resolver::{Broken, Limit, Rule};
use std::alloc::Global;

fn rule_name(rule: Rule) -> &'static str
    ensures { result.now ≡ rule_name rule }
{
    match rule {
        Rule::DuplicateName => "DuplicateName",
        Rule::UnknownSuper => "UnknownSuper",
        Rule::CycleInSuper => "CycleInSuper",
        Rule::SuperIsBuiltin => "SuperIsBuiltin",
        Rule::UndefinedName => "UndefinedName",
        Rule::MixedName => "MixedName",
        Rule::TearOff => "TearOff",
        Rule::BadOverride => "BadOverride",
        Rule::AbstractMade => "AbstractMade",
        Rule::FinalWritten => "FinalWritten",
        Rule::BadReturnPlace => "BadReturnPlace",
        Rule::Shadowed => "Shadowed",
        Rule::WrongArgumentsOfStatic => "WrongArgumentsOfStatic",
    }
}

/// The line of a rule that is broken at a place.
pub fn rule_line(alloc: Global, source: &[u8], broken: Broken) -> Result<Vec<u8>, NoMemory>
    requires { length source.now ≤ 1048576 }
    ensures { IfOk result (λ line. line.items ≡ rule_line source.now broken.rule broken.span) }
{
    let mut line = Vec::new(alloc);
    push(&mut line, b"refused: ")?;
    push(&mut line, rule_name(broken.rule).as_bytes())?;
    push(&mut line, b" at ")?;
    push_place(&mut line, source, broken.span.start as usize)?;
    push(&mut line, b"\n")?;
    Ok(line)
}

fn limit_name(what: Limit) -> &'static str
    ensures { result.now ≡ limit_name what }
{
    match what {
        Limit::Classes => "classes",
        Limit::Methods => "methods",
        Limit::Functions => "functions",
        Limit::Selectors => "selectors",
        Limit::Sites => "sites",
    }
}

/// The greatest count that is accepted.
fn most(what: Limit) -> u64
    ensures { result ≡ most what }
{
    match what {
        Limit::Classes | Limit::Selectors => 2_048,
        Limit::Methods | Limit::Functions => 32_767,
        Limit::Sites => 65_536,
    }
}

/// The line of a count that is over its limit.
pub fn limit_line(alloc: Global, what: Limit, count: u64) -> Result<Vec<u8>, NoMemory>
    ensures { IfOk result (λ line. line.items ≡ limit_line what count) }
{
    let mut line = Vec::new(alloc);
    push(&mut line, b"refused: LimitReached ")?;
    push(&mut line, limit_name(what).as_bytes())?;
    push(&mut line, b" ")?;
    push_number(&mut line, count)?;
    push(&mut line, b" of ")?;
    push_number(&mut line, most(what))?;
    push(&mut line, b"\n")?;
    Ok(line)
}

/// The line of a name that is no entry point.
pub fn entry_line(alloc: Global, name: &[u8]) -> Result<Vec<u8>, NoMemory>
    ensures { IfOk result (λ line. line.items ≡ entry_line name.now) }
{
    let mut line = Vec::new(alloc);
    push(&mut line, b"refused: no entry point ")?;
    push(&mut line, name)?;
    push(&mut line, b"\n")?;
    Ok(line)
}
