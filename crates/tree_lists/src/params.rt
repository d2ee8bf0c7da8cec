//! Parameters: how many have to be given, and what the others hold where no argument stands.

ghost use Rattle.std.specs.Prelude.{◌≡◌, ◌≤◌, ◌++◌, cond, not, IfOk, OnOk, map, filter_map, []};
ghost use Rattle.std.specs.List.{cons_option};
ghost use Rattle.dart_syntax.specs.View.{param};
ghost use Rattle.dart_meaning.specs.Classes.{required};
ghost use Rattle.dart_meaning.specs.Numbered.{literal};
ghost use Rattle.dart_meaning.specs.NumberedForm.{default, defaults};

use crate::literals::literal_or_null;
use dart_syntax::tree::Param;
use ds_base::NoMemory;
use program::Literal;
use sqlite_items::Items;
use std::alloc::Global;
use tree_numbers::word;

/// A parameter that each call has to give counts as one.
fn needed(p: &Param) -> usize
    ensures count { result ≡ cond (not p.now.optional) 1 0 }
    ensures one { result ≤ 1 }
{
    if p.optional { 0 } else { 1 }
}

fn required_of(params: &[Param]) -> usize
    ensures { result ≡ required (map param params.now) }
{
    let mut n = 0;
    for p in params {
        n += needed(p);
    }
    n
}

/// The number of parameters that each call has to give.
pub fn required(params: &[Param]) -> Result<u32, NoMemory>
    ensures { IfOk result (λ n. n ≡ required (map param params.now)) }
{
    word(required_of(params))
}

/// Takes what a parameter holds by default, if it has one.
fn add_default(alloc: Global, all: &mut Items<Literal>, p: &Param) -> Result<(), NoMemory>
    ensures { OnOk result (map literal all.new ≡ map literal all.old ++ cons_option (default (param p.now)) []) }
{
    if p.optional {
        all.push(literal_or_null(alloc, &p.default)?)?;
    }
    Ok(())
}

/// What the optional parameters hold where no argument stands.
pub fn defaults(alloc: Global, params: &[Param]) -> Result<Items<Literal>, NoMemory>
    ensures { IfOk result (λ all. map literal all ≡ defaults (map param params.now)) }
{
    let mut all = Items::new(alloc);
    for p in params {
        add_default(alloc, &mut all, p)?;
    }
    Ok(all)
}
