// Members by class, kind and name, where a name goes by a number.
ghost use Rattle.std.specs.Prelude.{◌≡◌, ◌≤◌, ◌<◌, ℕ, length, map, codes, IfOk, OnOk};
ghost use Rattle.std.specs.Option.{option_copied};
ghost use Rattle.std.specs.Str.{bytes_eq};
ghost use Rattle.program.specs.Lookup.{or_above};
ghost use Rattle.method_lookup.specs.Index.{name_number, number_in, member_in, is_key, is_keyed_by, if_so, keyed, selector_names};

use program::{Method, Numbered, Selector, SelectorKind};
use std::alloc::{AllocError, Global};
use std::collections::HashMap;

/// A member by its class, its kind and the number of its name.
#[derive(Clone, Copy, PartialEq, Eq, Hash)]
pub struct MemberKey {
    pub owner: u16,
    pub role: SelectorKind,
    pub name: u16,
}

/// Takes a name, unless it is there already.
fn note_name<'a>(
    names: &mut HashMap<&'a [u8], u16>,
    name: &'a [u8],
    m: u16,
) -> Result<(), AllocError>
    ensures { OnOk result ((q : _) → number_in names.new q ≡ or_above (number_in names.old q) (if_so (bytes_eq name.now q) m)) }
{
    if !names.contains_key(name) {
        names.insert(name, m)?;
    }
    Ok(())
}

/// For each name the first member that has it.
pub fn name_numbers<'a>(
    alloc: Global,
    methods: &'a [Method],
) -> Result<HashMap<&'a [u8], u16>, AllocError>
    requires { length methods.now ≤ 32767 }
    ensures { IfOk result (λ names. (q : _) → number_in names q ≡ name_number methods.now q) }
{
    let mut names = HashMap::new(alloc);
    for (m, method) in methods.iter().enumerate() {
        note_name(&mut names, method.name.as_slice(), m as u16)?;
    }
    Ok(names)
}

/// The number of a name.
pub fn number_of(names: &HashMap<&[u8], u16>, name: &[u8]) -> Option<u16>
    ensures { result ≡ number_in names.now name.now }
{
    names.get(name).copied()
}

/// The number of each selector's name.
pub fn names_of_selectors(
    alloc: Global,
    names: &HashMap<&[u8], u16>,
    selectors: &[Selector],
) -> Result<Vec<Option<u16>>, AllocError>
    ensures { IfOk result (λ all. all.items ≡ map (λ s. number_in names.now s.name) selectors.now) }
{
    let mut all = Vec::new(alloc);
    for selector in selectors {
        all.push(number_of(names, selector.name.as_slice()))?;
    }
    Ok(all)
}

/// Takes a member, unless its class has one of its kind and name already.
fn note_member(
    members: &mut HashMap<MemberKey, u16>,
    key: MemberKey,
    m: u16,
) -> Result<(), AllocError>
    ensures { OnOk result ((c : _) → (role : _) → (n : _) → member_in members.new c role n ≡ or_above (member_in members.old c role n) (if_so (is_key c role n key) m)) }
{
    if !members.contains_key(&key) {
        members.insert(key, m)?;
    }
    Ok(())
}

pub fn member_at(members: &HashMap<MemberKey, u16>, key: MemberKey) -> Option<u16>
    ensures { result ≡ member_in members.now key.owner key.role key.name }
{
    members.get(&key).copied()
}

/// The same of a method, by the number of its name.
fn note_method(
    names: &HashMap<&[u8], u16>,
    members: &mut HashMap<MemberKey, u16>,
    method: &Method,
    m: u16,
) -> Result<(), AllocError>
    ensures { OnOk result ((c : _) → (role : _) → (n : _) → member_in members.new c role n ≡ or_above (member_in members.old c role n) (if_so (is_keyed_by (number_in names.now) c role n method.now) m)) }
{
    match number_of(names, method.name.as_slice()) {
        Some(name) => {
            let key = MemberKey {
                owner: method.owner.0,
                role: method.role,
                name,
            };
            note_member(members, key, m)
        }
        None => Ok(()),
    }
}

/// The members by their classes, kinds and names.
pub fn members_by_key(
    alloc: Global,
    names: &HashMap<&[u8], u16>,
    methods: &[Method],
) -> Result<HashMap<MemberKey, u16>, AllocError>
    requires few { length methods.now ≤ 32767 }
    requires names { (q : _) → number_in names.now q ≡ name_number methods.now q }
    ensures { IfOk result (λ members. (c : _) → (role : _) → (n : _) → member_in members c role n ≡ keyed methods.now c role n) }
{
    let mut members = HashMap::new(alloc);
    for (m, method) in methods.iter().enumerate() {
        note_method(names, &mut members, method, m as u16)?;
    }
    Ok(members)
}

/// What is looked up of a program's members: the number of each selector's name, that of `noSuchMethod`, and the members.
#[derive(Drop)]
pub struct Index {
    pub selector_names: Vec<Option<u16>>,
    pub missing_name: Option<u16>,
    pub members: HashMap<MemberKey, u16>,
}

pub fn index_of(alloc: Global, program: &Numbered) -> Result<Index, AllocError>
    ensures names { IfOk result (λ i. i.selector_names.items ≡ selector_names program.now.methods program.now.selectors) }
    ensures missing { IfOk result (λ i. i.missing_name ≡ name_number program.now.methods (codes "noSuchMethod")) }
    ensures members { IfOk result (λ i. (c : _) → (role : _) → (n : _) → member_in i.members c role n ≡ keyed program.now.methods c role n) }
{
    let methods = program.methods.as_slice();
    let names = name_numbers(alloc, methods)?;
    let selector_names = names_of_selectors(alloc, &names, program.selectors.as_slice())?;
    let missing_name = number_of(&names, b"noSuchMethod");
    let members = members_by_key(alloc, &names, methods)?;
    Ok(Index {
        selector_names,
        missing_name,
        members,
    })
}
