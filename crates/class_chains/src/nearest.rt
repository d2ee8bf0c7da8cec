//! How many parameters the nearest method of each name has, from a class up; and what is put back on the way up.

ghost use Rattle.std.specs.Prelude.{◌≡◌, [], ◌∷◌, map, filter_map, option_map, IfOk, OnOk};
ghost use Rattle.dart_syntax.specs.View.{member, class};
ghost use Rattle.static_rules.specs.BadOverride.{differs};
ghost use Rattle.class_chains.specs.Overriding.{override_at, overrides_by};
ghost use Rattle.class_chains.specs.Descending.{counted, no_count, with_count, put_pair, own_pair, built_in_pair, own_or, built_in_or, saved, before_of, put_all};

use dart_syntax::token::Span;
use dart_syntax::tree::{ClassDecl, Member};
use declaration_rules::{earlier_of, place_if};
use program::{Method, SelectorKind};
use std::alloc::{AllocError, Global};
use std::collections::HashMap;

/// A name and what it counts; of a class on the way, what it counted above that.
#[derive(Clone, Copy)]
pub struct Before<'a> {
    pub name: &'a [u8],
    pub count: Option<usize>,
}

/// The counts from a class up. The way up has no more classes than its height, and ends.
#[derive(Drop)]
pub struct Nearest<'a> {
    pub counts: HashMap<&'a [u8], usize>,
    pub class: &'a [u8],
    pub height: usize,
}

/// Whether the nearest method above takes another number of parameters.
pub fn differs(above: Option<usize>, count: usize) -> bool
    ensures { result ≡ differs above count }
{
    match above {
        None => false,
        Some(other) => other != count,
    }
}

fn put<'a>(
    counts: &mut HashMap<&'a [u8], usize>,
    name: &'a [u8],
    count: Option<usize>,
) -> Result<(), AllocError>
    ensures { OnOk result (counted counts.new ≡ with_count name.now count (counted counts.old)) }
{
    match count {
        Some(count) => {
            counts.insert(name, count)?;
        }
        None => {
            counts.remove(&name);
        }
    }
    Ok(())
}

fn put_option<'a>(
    counts: &mut HashMap<&'a [u8], usize>,
    b: Option<Before<'a>>,
) -> Result<(), AllocError>
    ensures { OnOk result (counted counts.new ≡ put_pair (option_map before_of b.entry) (counted counts.old)) }
{
    match b {
        Some(b) => {
            put(counts, b.name, b.count)?;
            Ok(())
        }
        None => Ok(()),
    }
}

/// What a member counts, if it is a method.
fn own_pair(m: &Member) -> Option<Before<'_>>
    ensures { option_map before_of result ≡ own_pair (member m.now) }
{
    match m {
        Member::Method(name, params, _) => Some(Before {
            name: name.text.as_slice(),
            count: Some(params.len()),
        }),
        Member::Field(_)
        | Member::Getter(_, _)
        | Member::Setter(_, _, _)
        | Member::Operator(_, _, _, _)
        | Member::Constructor(_, _, _, _) => None,
    }
}

/// What a built-in method of the class with this number counts.
fn built_in_pair(m: &Method, number: usize) -> Option<Before<'_>>
    ensures { option_map before_of result ≡ built_in_pair number m.now }
{
    if usize::from(m.owner.0) == number && matches!(m.role, SelectorKind::Call) {
        Some(Before {
            name: m.name.as_slice(),
            count: Some(m.required as usize),
        })
    } else {
        None
    }
}

fn put_member<'a>(counts: &mut HashMap<&'a [u8], usize>, m: &'a Member) -> Result<(), AllocError>
    ensures { OnOk result (counted counts.new ≡ own_or (member m.now ∷ []) (counted counts.old)) }
{
    put_option(counts, own_pair(m))?;
    Ok(())
}

fn put_method<'a>(
    counts: &mut HashMap<&'a [u8], usize>,
    number: usize,
    m: &'a Method,
) -> Result<(), AllocError>
    ensures { OnOk result (counted counts.new ≡ built_in_or number (m.now ∷ []) (counted counts.old)) }
{
    put_option(counts, built_in_pair(m, number))?;
    Ok(())
}

/// Puts in what these members count. The last is put first, so that of two of one name the first counts.
pub fn put_own<'a>(
    counts: &mut HashMap<&'a [u8], usize>,
    members: &'a [Member],
) -> Result<(), AllocError>
    ensures { OnOk result (counted counts.new ≡ own_or (map member members.now) (counted counts.old)) }
{
    let mut left = members.len();
    while left > 0 {
        left -= 1;
        put_member(counts, &members[left])?;
    }
    Ok(())
}

/// The counts of the built-in methods of a class.
pub fn built_in_counts<'a>(
    alloc: Global,
    methods: &'a [Method],
    number: usize,
) -> Result<HashMap<&'a [u8], usize>, AllocError>
    ensures { IfOk result (λ counts. counted counts ≡ built_in_or number methods.now no_count) }
{
    let mut counts = HashMap::new(alloc);
    let mut left = methods.len();
    while left > 0 {
        left -= 1;
        put_method(&mut counts, number, &methods[left])?;
    }
    Ok(counts)
}

/// Puts back what was there.
pub fn put_back<'a>(
    counts: &mut HashMap<&'a [u8], usize>,
    was: &[Before<'a>],
) -> Result<(), AllocError>
    ensures { OnOk result (counted counts.new ≡ put_all (map before_of was.now) (counted counts.old)) }
{
    for b in was {
        put(counts, b.name, b.count)?;
    }
    Ok(())
}

impl<'a> Nearest<'a> {
    #[tactic(auto, unfolding(crate::specs::Descending::counted))]
    fn look(&self, name: &[u8]) -> Option<usize>
        ensures { result ≡ counted self.now.counts name.now }
    {
        self.counts.get(&name).copied()
    }

    fn before(&self, m: &'a Member) -> Option<Before<'a>>
        ensures { option_map before_of result ≡ saved (counted self.now.counts) (member m.now) }
    {
        match m {
            Member::Method(name, _, _) => {
                let name = name.text.as_slice();
                let count = self.look(name);
                Some(Before { name, count })
            }
            Member::Field(_)
            | Member::Getter(_, _)
            | Member::Setter(_, _, _)
            | Member::Operator(_, _, _, _)
            | Member::Constructor(_, _, _, _) => None,
        }
    }

    /// What the names of these methods count.
    pub fn saved(&self, alloc: Global, members: &'a [Member]) -> Result<Vec<Before<'a>>, AllocError>
        ensures { IfOk result (λ all. map before_of all.items ≡ filter_map (saved (counted self.now.counts)) (map member members.now)) }
    {
        let mut all = Vec::new(alloc);
        for m in members {
            if let Some(b) = self.before(m) {
                all.push(b)?;
            }
        }
        Ok(all)
    }

    fn override_at(&self, m: &Member) -> Option<Span>
        ensures { result ≡ override_at (counted self.now.counts) (member m.now) }
    {
        match m {
            Member::Method(name, params, _) => {
                let above = self.look(name.text.as_slice());
                place_if(differs(above, params.len()), name.span)
            }
            Member::Field(_)
            | Member::Getter(_, _)
            | Member::Setter(_, _, _)
            | Member::Operator(_, _, _, _)
            | Member::Constructor(_, _, _, _) => None,
        }
    }

    /// The first method of a class below that takes another number of parameters.
    pub fn overrides_in(&self, c: &ClassDecl) -> Option<Span>
        ensures { result ≡ overrides_by (counted self.now.counts) (class c.now) }
    {
        let mut at = None;
        for m in c.members.as_slice() {
            at = earlier_of(at, self.override_at(m));
        }
        at
    }
}
