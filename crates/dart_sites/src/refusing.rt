// The refusal of a tree.
ghost use Rattle.std.specs.Prelude.{◌≡◌, ◌≤◌, length, IfSome, Some, option_map};
ghost use Rattle.dart_syntax.specs.View.{unit};
ghost use Rattle.dart_sites.specs.Source.{IsTreeOf};
ghost use Rattle.static_rules.specs.Accepted.{failing};
ghost use Rattle.resolver.specs.Refusals.{IsRefusal, broken, finding};
ghost use Rattle.dart_sites.specs.Top.{OutcomeSays};

use crate::refusals::{limit_line, rule_line};
use crate::telling::Outcome;
use crate::words::Request;
use dart_syntax::Tree;
use resolver::{Broken, NameError};
use std::alloc::Global;

/// The rule that the tree breaks first, and where.
fn broken_of(tree: &Tree, error: NameError) -> Option<Broken>
    requires { IsRefusal (unit tree.now) error }
    ensures exact { option_map finding result ≡ broken error }
    ensures first { IfSome result (λ b. failing (unit tree.now) ≡ Some (finding b)) }
{
    error.broken()
}

/// The line of a rule that the tree breaks.
fn refused_by_rule(
    alloc: Global,
    request: Request,
    source: &[u8],
    tree: &Tree,
    broken: Broken,
) -> Outcome
    requires source { length source.now ≤ 1048576 }
    requires tree { IsTreeOf source.now (unit tree.now) }
    requires broken { failing (unit tree.now) ≡ Some (finding broken) }
    ensures { OutcomeSays request.entry source.now result }
{
    match rule_line(alloc, source, broken) {
        Ok(line) => Outcome::WrongNames(line),
        Err(_) => Outcome::NoMemory,
    }
}

/// The line of a refusal of the tree.
pub fn refused_tree(
    alloc: Global,
    request: Request,
    source: &[u8],
    tree: &Tree,
    error: NameError,
) -> Outcome
    requires source { length source.now ≤ 1048576 }
    requires tree { IsTreeOf source.now (unit tree.now) }
    requires refused { IsRefusal (unit tree.now) error }
    ensures { OutcomeSays request.entry source.now result }
{
    if let NameError::LimitReached { what, count } = error {
        return match limit_line(alloc, what, count) {
            Ok(line) => Outcome::OverLimit(line),
            Err(_) => Outcome::NoMemory,
        };
    }
    match broken_of(tree, error) {
        Some(broken) => refused_by_rule(alloc, request, source, tree, broken),
        None => Outcome::NoMemory,
    }
}
