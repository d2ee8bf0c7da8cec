//! Accepts a tree, or says why not.

ghost use Rattle.std.specs.Prelude.{◌≡◌, ◌≢◌, map, take, None, IfOk, IfErr, MatchResult};
ghost use Rattle.dart_syntax.specs.Syntax as t;
ghost use Rattle.dart_syntax.specs.View.{unit};
ghost use Rattle.dart_meaning.specs.Uses as u;
ghost use Rattle.name_uses.specs.Found.{found};
ghost use Rattle.name_uses.specs.Looked.{looked};
ghost use Rattle.static_rules.specs.Accepted.{counts, exceeded, failing, findings, first_broken, IsAccepted};
ghost use Rattle.resolver.specs.Counted.{counts_of};
ghost use Rattle.resolver.specs.Refusals.{IsRefusal};

use crate::error::{NameError, error_of};
use crate::limits::{Counts, exceeded};
use crate::rules::{of_bodies, of_declarations};
use dart_syntax::tree::Tree;
use declaration_rules::count_declarations;
use name_uses::{Parts, parts_of};
use site_list::{count_selectors, count_sites, sites_of};
use std::alloc::{AllocError, Global};
use text_names::TextNames;

/// What is counted of a tree.
fn count(alloc: Global, names: &TextNames, parts: &Parts) -> Result<Counts, AllocError>
    requires by_names { map (looked (unit names.now.tree.now)) (found parts.now) ≡ u.parts (unit names.now.tree.now) }
    ensures { IfOk result (λ c. counts_of c ≡ counts (unit names.now.tree.now)) }
{
    let declared = count_declarations(alloc, names.tree)?;
    let sites = sites_of(alloc, names, parts)?;
    let selectors = count_selectors(alloc, &sites)?;
    Ok(Counts {
        classes: declared.classes as u64,
        methods: declared.methods as u64,
        functions: declared.functions as u64,
        selectors: selectors as u64,
        sites: count_sites(&sites) as u64,
    })
}

/// The counts, where each keeps its limit.
fn within_limits(counted: Counts) -> Result<Counts, NameError>
    ensures refused { (tree : t.Tree) → failing tree ≡ None → counts_of counted ≡ counts tree → IfErr result (λ e. IsRefusal tree e) }
    ensures within { IfOk result (λ _. exceeded (counts_of counted) ≡ None) }
    ensures same { IfOk result (λ c. c ≡ counted) }
{
    if let Some((what, count)) = exceeded(&counted) {
        return Err(NameError::LimitReached { what, count });
    }
    Ok(counted)
}

/// The same as `accept`, where the rules on declarations are kept.
fn accept_bodies(alloc: Global, names: &TextNames, parts: &Parts) -> Result<Counts, NameError>
    requires whole { found parts.now ≡ u.parts (unit names.now.tree.now) }
    requires kept { first_broken (take 4 (findings (unit names.now.tree.now))) ≡ None }
    ensures refused { IfErr result (λ e. IsRefusal (unit names.now.tree.now) e) }
    ensures accepted { IfOk result (λ _. IsAccepted (unit names.now.tree.now)) }
    ensures counts { IfOk result (λ c. counts_of c ≡ counts (unit names.now.tree.now)) }
{
    if let Some(found) = of_bodies(alloc, names, parts)? {
        return Err(error_of(found));
    }
    let counted = count(alloc, names, parts)?;
    within_limits(counted)
}

/// The counts of a tree that breaks no rule and keeps the limits. An error names the first rule that it breaks, at the first place where it does, or else the first count that is over its limit.
pub fn accept(alloc: Global, tree: &Tree) -> Result<Counts, NameError>
    // What is answered is so of the tree.
    ensures refused { IfErr result (λ e. IsRefusal (unit tree.now) e) }
    ensures accepted { IfOk result (λ _. IsAccepted (unit tree.now)) }
    ensures counts { IfOk result (λ c. counts_of c ≡ counts (unit tree.now)) }
    // What is so of the tree is answered, or want of memory.
    ensures only { IsAccepted (unit tree.now) → IfErr result (λ e. e ≡ NameError.NoMemory) }
    ensures cause { (e : NameError) → e ≢ NameError.NoMemory → IsRefusal (unit tree.now) e → MatchResult result (λ _. ⊥) (λ d. d ≢ NameError.NoMemory → d ≡ e) }
{
    if let Some(found) = of_declarations(alloc, tree)? {
        return Err(error_of(found));
    }
    let names = TextNames::of(alloc, tree)?;
    let parts = parts_of(alloc, tree)?;
    accept_bodies(alloc, &names, &parts)
}
