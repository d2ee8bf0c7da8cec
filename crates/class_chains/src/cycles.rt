//! Classes that are above themselves.
//! The ranks take time with the names after `extends` and `implements`, and tell it of each class that is on no cycle.
//! The first class on one is asked by steps up, each of which takes time with the names that are so far above: round a cycle of `extends` alone that is one name a step.

ghost use Rattle.std.specs.Prelude.{◌≡◌, ◌+◌, true, nat_le, nat_lt, map, length, IfOk, OnOk};
ghost use Rattle.std.specs.List.{list_all, list_any};
ghost use Rattle.std.specs.Option.{option_to_list};
ghost use Rattle.dart_syntax.specs.View.{class, unit};
ghost use Rattle.static_rules.specs.Places.{first_in, ◌or_else◌};
ghost use Rattle.class_chains.specs.Ranking.{rank_in, keeps, falls, texts, name_texts, is_above_itself_by, AreTold, is_earlier, cycle_at, tells};
ghost use Rattle.declaration_rules.specs.Finding.{found_in, named_of};
ghost use Rattle.static_rules.specs.Supers.{supers, cycle_in_super};
ghost use Rattle.declaration_rules.specs.Seen.{class_of};

use crate::ranks::ranks_of;
use crate::reaching::{Reached, is_reached};
use dart_syntax::token::Span;
use dart_syntax::tree::{ClassDecl, Name, Tree};
use declaration_rules::{classes_by_name, classes_of, earlier_of, place_if, sum};
use std::alloc::{AllocError, Global};
use std::collections::HashMap;

const OBJECT: &[u8] = b"Object";

/// The rank of a name; one without a rank is below all others.
fn rank_of(ranks: &HashMap<&[u8], usize>, name: &[u8]) -> usize
    ensures { result ≡ rank_in ranks.now name.now }
{
    ranks.get(&name).copied().unwrap_or(0)
}

fn is_up_to(ranks: &HashMap<&[u8], usize>, name: &Name, most: usize) -> bool
    ensures { result ≡ nat_le (rank_in ranks.now name.now.text) most }
{
    rank_of(ranks, name.text.as_slice()) <= most
}

fn is_below(ranks: &HashMap<&[u8], usize>, name: &Name, bound: usize) -> bool
    ensures { result ≡ nat_lt (rank_in ranks.now name.now.text) bound }
{
    rank_of(ranks, name.text.as_slice()) < bound
}

fn parent_is_up_to(ranks: &HashMap<&[u8], usize>, parent: &Option<Name>, most: usize) -> bool
    ensures { result ≡ list_all (λ n. nat_le (rank_in ranks.now n.text) most) (option_to_list parent.now) }
{
    match parent {
        None => true,
        Some(name) => is_up_to(ranks, name, most),
    }
}

fn parent_is_below(ranks: &HashMap<&[u8], usize>, parent: &Option<Name>, bound: usize) -> bool
    ensures { result ≡ list_all (λ n. nat_lt (rank_in ranks.now n.text) bound) (option_to_list parent.now) }
{
    match parent {
        None => true,
        Some(name) => is_below(ranks, name, bound),
    }
}

fn are_up_to(ranks: &HashMap<&[u8], usize>, names: &[Name], most: usize) -> bool
    ensures { result ≡ list_all (λ n. nat_le (rank_in ranks.now n.text) most) names.now }
{
    names.iter().all(|name| is_up_to(ranks, name, most))
}

fn are_below(ranks: &HashMap<&[u8], usize>, names: &[Name], bound: usize) -> bool
    ensures { result ≡ list_all (λ n. nat_lt (rank_in ranks.now n.text) bound) names.now }
{
    names.iter().all(|name| is_below(ranks, name, bound))
}

/// Whether no class above has a greater rank.
#[tactic(auto, using(crate::proofs::Falling::all_append))]
fn keeps(ranks: &HashMap<&[u8], usize>, c: &ClassDecl) -> bool
    ensures { result ≡ keeps (rank_in ranks.now) (class c.now) }
{
    let rank = rank_of(ranks, c.name.text.as_slice());
    let parent = parent_is_up_to(ranks, &c.parent, rank);
    let others = are_up_to(ranks, c.interfaces.as_slice(), rank);
    parent && others
}

/// Whether each class above has a lesser rank.
#[tactic(auto, using(crate::proofs::Falling::all_append))]
fn falls(ranks: &HashMap<&[u8], usize>, c: &ClassDecl) -> bool
    ensures { result ≡ falls (rank_in ranks.now) (class c.now) }
{
    let rank = rank_of(ranks, c.name.text.as_slice());
    let parent = parent_is_below(ranks, &c.parent, rank);
    let others = are_below(ranks, c.interfaces.as_slice(), rank);
    parent && others
}

fn all_keep(ranks: &HashMap<&[u8], usize>, classes: &[&ClassDecl]) -> bool
    ensures { result ≡ list_all (λ c. keeps (rank_in ranks.now) (class_of c)) classes.now }
{
    classes.iter().all(|c| keeps(ranks, c))
}

/// Whether a class leads up to itself.
fn is_above_itself<'a>(
    alloc: Global,
    known: &HashMap<&'a [u8], &'a ClassDecl>,
    most: usize,
    c: &'a ClassDecl,
) -> Result<bool, AllocError>
    ensures { IfOk result (λ found. found ≡ is_above_itself_by most (found_in known.now) (class c.now)) }
{
    let start = super_texts(alloc, c)?;
    is_reached(alloc, known, start, c.name.text.as_slice(), most)
}

/// The names after `extends` and `implements`.
fn super_texts(alloc: Global, c: &ClassDecl) -> Result<Vec<Reached<'_>>, AllocError>
    ensures { IfOk result (λ all. texts all.items ≡ name_texts (supers (class c.now))) }
{
    let mut all = Vec::new(alloc);
    if let Some(parent) = &c.parent {
        all.push(Reached {
            text: parent.text.as_slice(),
        })?;
    }
    for name in c.interfaces.as_slice() {
        all.push(Reached {
            text: name.text.as_slice(),
        })?;
    }
    Ok(all)
}

/// Whether a place stands before another one, if there is one.
fn is_earlier(place: Span, at: Option<Span>) -> bool
    ensures { result ≡ is_earlier place at }
{
    match at {
        None => true,
        Some(other) => place.start < other.start,
    }
}

/// What is known of the classes of a tree.
#[derive(Drop)]
pub struct Hierarchy<'a> {
    known: HashMap<&'a [u8], &'a ClassDecl>,
    ranks: HashMap<&'a [u8], usize>,
    /// Whether falling ranks tell that a class is not above itself.
    tells: bool,
    most: usize,
}

impl<'a> Hierarchy<'a> {
    /// The place of a class that is above itself.
    fn cycle_at(&self, alloc: Global, c: &'a ClassDecl) -> Result<Option<Span>, AllocError>
        requires { self.now.tells ≡ true → AreTold self.now.most (rank_in self.now.ranks) (found_in self.now.known) }
        ensures { IfOk result (λ at. at ≡ cycle_at self.now.most (found_in self.now.known) (class c.now)) }
    {
        if self.tells && falls(&self.ranks, c) {
            return Ok(None);
        }
        let found = is_above_itself(alloc, &self.known, self.most, c)?;
        Ok(place_if(found, c.name.span))
    }

    /// The earlier of a place and that of one more class. A class behind the place is not asked.
    fn next_cycle(
        &self,
        alloc: Global,
        at: Option<Span>,
        c: &'a ClassDecl,
    ) -> Result<Option<Span>, AllocError>
        requires { self.now.tells ≡ true → AreTold self.now.most (rank_in self.now.ranks) (found_in self.now.known) }
        ensures { IfOk result (λ next. next ≡ (at or_else cycle_at self.now.most (found_in self.now.known) (class c.now))) }
    {
        if !is_earlier(c.name.span, at) {
            return Ok(at);
        }
        Ok(earlier_of(at, self.cycle_at(alloc, c)?))
    }

    fn first_cycle(
        &self,
        alloc: Global,
        classes: &[&'a ClassDecl],
    ) -> Result<Option<Span>, AllocError>
        requires { self.now.tells ≡ true → AreTold self.now.most (rank_in self.now.ranks) (found_in self.now.known) }
        ensures { IfOk result (λ at. at ≡ first_in (cycle_at self.now.most (found_in self.now.known)) (map class_of classes.now)) }
    {
        let mut at = None;
        for c in classes {
            at = self.next_cycle(alloc, at, c)?;
        }
        Ok(at)
    }
}

/// Whether falling ranks tell that a class is not above itself: no rank rises on the way up, and none is below that of Object.
fn tells(ranks: &HashMap<&[u8], usize>, classes: &[&ClassDecl]) -> bool
    ensures { result ≡ tells (rank_in ranks.now) classes.now }
{
    rank_of(ranks, OBJECT) == 0 && all_keep(ranks, classes)
}

fn hierarchy_of<'a>(alloc: Global, classes: &[&'a ClassDecl]) -> Result<Hierarchy<'a>, AllocError>
    ensures known { IfOk result (λ h. (q : _) → found_in h.known q ≡ named_of (map class_of classes.now) q) }
    ensures tells { IfOk result (λ h. h.tells ≡ true → AreTold h.most (rank_in h.ranks) (found_in h.known)) }
    ensures most { IfOk result (λ h. h.most ≡ 7 + length classes.now) }
{
    let known = classes_by_name(alloc, classes)?;
    let ranks = ranks_of(alloc, classes)?;
    let tells = tells(&ranks, classes);
    let most = sum(7, classes.len())?;
    Ok(Hierarchy {
        known,
        ranks,
        tells,
        most,
    })
}

/// The first class that is above itself by `extends` and `implements`.
pub fn cycle_in_super(alloc: Global, tree: &Tree) -> Result<Option<Span>, AllocError>
    ensures { IfOk result (λ at. at ≡ cycle_in_super (unit tree.now)) }
{
    let classes = classes_of(alloc, tree.tops.as_slice())?;
    let hierarchy = hierarchy_of(alloc, &classes)?;
    hierarchy.first_cycle(alloc, &classes)
}
