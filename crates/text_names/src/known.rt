//! Sets of names, and what names stand for.

ghost use Rattle.std.specs.Prelude.{◌≡◌, OnOk, option_map};
ghost use Rattle.text_names.specs.Maps.{Names, in_set, with_name, with_some, no_names, in_map, with_first, nothing_known};

use std::alloc::{AllocError, Global};
use std::collections::{HashMap, HashSet};

/// No name.
pub fn no_names<'a>(alloc: Global) -> HashSet<&'a [u8]>
    ensures { in_set result ≡ no_names }
{
    HashSet::new(alloc)
}

#[tactic(auto, unfolding(crate::specs::Maps::in_set))]
pub fn is_in(set: &HashSet<&[u8]>, name: &[u8]) -> bool
    ensures { result ≡ in_set set.now name.now }
{
    set.contains(&name)
}

/// Takes a name to a set.
pub fn put<'a>(set: &mut HashSet<&'a [u8]>, name: &'a [u8]) -> Result<(), AllocError>
    ensures { OnOk result (in_set set.new ≡ with_name name.now (in_set set.old)) }
{
    set.insert(name)?;
    Ok(())
}

pub fn put_some<'a>(set: &mut HashSet<&'a [u8]>, name: Option<&'a [u8]>) -> Result<(), AllocError>
    ensures { OnOk result (in_set set.new ≡ with_some (option_map (λ t. t.now) name.entry) (in_set set.old)) }
{
    match name {
        Some(name) => put(set, name),
        None => Ok(()),
    }
}

/// Nothing is known.
pub fn nothing_known<'a, V: Drop>(alloc: Global) -> HashMap<&'a [u8], V>
    ensures { in_map result ≡ nothing_known }
{
    HashMap::new(alloc)
}

/// Says what a name stands for, unless that is known.
pub fn keep_first<'a, V: Drop>(
    known: &mut HashMap<&'a [u8], V>,
    name: &'a [u8],
    value: V,
) -> Result<(), AllocError>
    ensures { OnOk result (in_map known.new ≡ with_first name.now value (in_map known.old)) }
{
    if known.contains_key(&name) {
        return Ok(());
    }
    known.insert(name, value)?;
    Ok(())
}

/// What a name stands for.
#[tactic(auto, unfolding(crate::specs::Maps::in_map))]
pub fn known_of<V: Copy>(known: &HashMap<&[u8], V>, name: &[u8]) -> Option<V>
    ensures { result ≡ in_map known.now name.now }
{
    known.get(&name).copied()
}
