//! The numbers of members.

ghost use Rattle.std.specs.Prelude.{◌≡◌, ◌++◌, ◌∷◌, [], OnOk, IfOk, map, flat_map, option_map, unwrap_or};
ghost use Rattle.dart_syntax.specs.View.{class, local, member};
ghost use Rattle.dart_meaning.specs.Numbering as num;
ghost use Rattle.tree_numbers.specs.Parts.{class_of};
ghost use Rattle.tree_numbers.specs.Members.{key_of, keys_of, keys_in, field_keys, key_if, built_in_key, in_pairs, with_pair, no_pairs, held, no_members, with_key, also_keyed};

use crate::places::short;
use dart_meaning::operators::operator_name;
use dart_syntax::tree::{ClassDecl, Local, Member};
use ds_base::NoMemory;
use program::{Method, SelectorKind};
use std::alloc::Global;
use std::collections::HashMap;

/// A member by its class, its kind and its name.
#[derive(Clone, Copy)]
pub struct Key<'a> {
    pub class: &'a [u8],
    pub kind: SelectorKind,
    pub name: &'a [u8],
}

/// A field gives its getter and then, unless it is final, its setter.
fn add_field<'a>(keys: &mut Vec<Key<'a>>, class: &'a [u8], l: &'a Local) -> Result<(), NoMemory>
    ensures { OnOk result (keys_of keys.new.items ≡ keys_of keys.old.items ++ field_keys class.now (local l.now)) }
{
    let name = l.name.text.as_slice();
    keys.push(Key {
        class,
        kind: SelectorKind::Get,
        name,
    })?;
    if !l.is_final {
        keys.push(Key {
            class,
            kind: SelectorKind::Set,
            name,
        })?;
    }
    Ok(())
}

/// An abstract declaration gives nothing.
fn add_if<'a>(keys: &mut Vec<Key<'a>>, has_body: bool, key: Key<'a>) -> Result<(), NoMemory>
    ensures { OnOk result (keys_of keys.new.items ≡ keys_of keys.old.items ++ key_if has_body (key_of key.entry)) }
{
    if has_body {
        keys.push(key)?;
    }
    Ok(())
}

fn add_member<'a>(keys: &mut Vec<Key<'a>>, class: &'a [u8], m: &'a Member) -> Result<(), NoMemory>
    ensures { OnOk result (keys_of keys.new.items ≡ keys_of keys.old.items ++ num.member_keys class.now (member m.now)) }
{
    let (has_body, kind, name) = match m {
        Member::Field(l) => return add_field(keys, class, l),
        Member::Method(name, _, code) => (code.is_some(), SelectorKind::Call, name.text.as_slice()),
        Member::Getter(name, code) => (code.is_some(), SelectorKind::Get, name.text.as_slice()),
        Member::Setter(name, _, code) => (code.is_some(), SelectorKind::Set, name.text.as_slice()),
        Member::Operator(op, _, params, code) => (
            code.is_some(),
            SelectorKind::Call,
            operator_name(*op, params.as_slice()),
        ),
        Member::Constructor(_, _, _, _) => return Ok(()),
    };
    add_if(keys, has_body, Key { class, kind, name })
}

fn add_members<'a>(
    keys: &mut Vec<Key<'a>>,
    class: &'a [u8],
    members: &'a [Member],
) -> Result<(), NoMemory>
    ensures { OnOk result (keys_of keys.new.items ≡ keys_of keys.old.items ++ flat_map (num.member_keys class.now) (map member members.now)) }
{
    for m in members {
        add_member(keys, class, m)?;
    }
    Ok(())
}

/// The keys of a class's members.
#[tactic(auto, unfolding(crate::specs::Members::keys_in))]
fn add_class<'a>(keys: &mut Vec<Key<'a>>, c: &'a ClassDecl) -> Result<(), NoMemory>
    ensures { OnOk result (keys_of keys.new.items ≡ keys_of keys.old.items ++ keys_in (class c.now)) }
{
    add_members(keys, c.name.text.as_slice(), c.members.as_slice())
}

/// The keys of the built-in members.
fn built_in_keys<'a>(
    alloc: Global,
    built_in: &'a [Method],
    names: &[&'a [u8]],
) -> Result<Vec<Key<'a>>, NoMemory>
    ensures { IfOk result (λ keys. keys_of keys.items ≡ map (built_in_key names.now) built_in.now) }
{
    let mut keys = Vec::new(alloc);
    for m in built_in {
        let class = names.get(m.owner.0 as usize).copied().unwrap_or(b"");
        keys.push(Key {
            class,
            kind: m.role,
            name: m.name.as_slice(),
        })?;
    }
    Ok(keys)
}

/// The keys of all members: the built-in ones, and those of the text in its order.
pub fn all_keys<'a>(
    alloc: Global,
    built_in: &'a [Method],
    names: &[&'a [u8]],
    classes: &[&'a ClassDecl],
) -> Result<Vec<Key<'a>>, NoMemory>
    ensures { IfOk result (λ keys. keys_of keys.items ≡ map (built_in_key names.now) built_in.now ++ flat_map keys_in (map class_of classes.now)) }
{
    let mut keys = built_in_keys(alloc, built_in, names)?;
    for c in classes {
        add_class(&mut keys, c)?;
    }
    Ok(keys)
}

type Pairs<'a> = HashMap<(&'a [u8], &'a [u8]), u16>;

/// The numbers of members by class and name, for each kind.
#[derive(Drop)]
pub struct MemberNumbers<'a> {
    gets: Pairs<'a>,
    sets: Pairs<'a>,
    calls: Pairs<'a>,
}

fn no_pairs<'a>(alloc: Global) -> Pairs<'a>
    ensures { in_pairs result ≡ no_pairs }
{
    HashMap::new(alloc)
}

/// Says which number a member has, unless that is known.
fn keep_pair<'a>(pairs: &mut Pairs<'a>, key: Key<'a>, n: u16) -> Result<(), NoMemory>
    ensures { OnOk result (in_pairs pairs.new ≡ with_pair key.entry.class.now key.entry.name.now n (in_pairs pairs.old)) }
{
    let pair = (key.class, key.name);
    if pairs.contains_key(&pair) {
        return Ok(());
    }
    pairs.insert(pair, n)?;
    Ok(())
}

fn no_members<'a>(alloc: Global) -> MemberNumbers<'a>
    ensures { held result ≡ no_members }
{
    MemberNumbers {
        gets: no_pairs(alloc),
        sets: no_pairs(alloc),
        calls: no_pairs(alloc),
    }
}

fn keep_key<'a>(numbers: &mut MemberNumbers<'a>, key: Key<'a>, n: u16) -> Result<(), NoMemory>
    ensures { OnOk result (held numbers.new ≡ with_key (key_of key.entry) n (held numbers.old)) }
{
    match key.kind {
        SelectorKind::Get => keep_pair(&mut numbers.gets, key, n)?,
        SelectorKind::Set => keep_pair(&mut numbers.sets, key, n)?,
        SelectorKind::Call => keep_pair(&mut numbers.calls, key, n)?,
    }
    Ok(())
}

#[tactic(auto, unfolding(crate::specs::Members::in_pairs))]
fn pair_number(pairs: &Pairs, class: &[u8], name: &[u8]) -> Option<u16>
    ensures { result ≡ in_pairs pairs.now class.now name.now }
{
    pairs.get(&(class, name)).copied()
}

fn number_in(numbers: &MemberNumbers, class: &[u8], kind: SelectorKind, name: &[u8]) -> Option<u16>
    ensures { result ≡ held numbers.now (num.key class.now kind name.now) }
{
    match kind {
        SelectorKind::Get => pair_number(&numbers.gets, class, name),
        SelectorKind::Set => pair_number(&numbers.sets, class, name),
        SelectorKind::Call => pair_number(&numbers.calls, class, name),
    }
}

/// The number of a member, 0 where there is none.
pub fn number_of(numbers: &MemberNumbers, class: &[u8], kind: SelectorKind, name: &[u8]) -> u16
    ensures { result ≡ unwrap_or (held numbers.now (num.key class.now kind name.now)) 0 }
{
    number_in(numbers, class, kind, name).unwrap_or(0)
}

/// The numbers of these members.
pub fn member_numbers<'a>(alloc: Global, keys: &[Key<'a>]) -> Result<MemberNumbers<'a>, NoMemory>
    ensures { IfOk result (λ numbers. held numbers ≡ also_keyed 0 (keys_of keys.now) no_members) }
{
    let mut numbers = no_members(alloc);
    for (i, key) in keys.iter().enumerate() {
        keep_key(&mut numbers, *key, short(i)?)?;
    }
    Ok(numbers)
}
