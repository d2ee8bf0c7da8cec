// For each class the set of those above it by `extends` and `implements`.
ghost use Rattle.std.specs.Prelude.{◌≡◌, ◌<◌, ◌≤◌, ◌/◌, ◌+◌, ◌||◌, nat_eq, IsTrue, [], length, slice_get, Some, All, IfOk, OnOk};
ghost use Rattle.std.specs.List.{list_any};
ghost use Rattle.program.specs.Hierarchy.{ends_within};
ghost use Rattle.class_table.specs.Rows.{holds, word_count, AreWithin, AllEnd, AreRows, IsFilled, row_of};

use crate::bits;
use sqlite_items::Items;
use std::alloc::{AllocError, Global};

/// The set of class `c` and all that the sets of these classes have.
fn joined(
    alloc: Global,
    rows: &[Items<u64>],
    supers: &[u16],
    c: usize,
) -> Result<Items<u64>, AllocError>
    requires there { c < length rows.now }
    requires within { All (λ e. e < length rows.now) supers.now }
    requires rows { All (λ e. length (row_of rows.now e) ≡ word_count (length rows.now)) supers.now }
    ensures same { IfOk result (λ words. length words ≡ word_count (length rows.now)) }
    ensures each { IfOk result (λ words. (d : _) → holds words d ≡ (nat_eq c d || list_any (λ e. holds (row_of rows.now e) d) supers.now)) }
{
    let mut words = vec![in alloc; 0u64; rows.len() / 64 + 1]?;
    bits::add(&mut words, c);
    for e in supers {
        bits::add_all(&mut words, rows[*e as usize].as_slice());
    }
    Ok(Items::from_vec(words))
}

/// Makes the set of class `c` and first those of the classes above it, where each way up ends within `left` classes.
fn fill(
    alloc: Global,
    named: &[Items<u16>],
    rows: &mut Vec<Items<u64>>,
    c: usize,
    left: usize,
) -> Result<(), AllocError>
    requires there { c < length named.now }
    requires within { AreWithin named.now }
    requires ends { IsTrue (ends_within left named.now c) }
    requires all_end { AllEnd named.now }
    requires same { length rows.old.items ≡ length named.now }
    requires right { AreRows named.now rows.old.items }
    ensures same { OnOk result (length rows.new.items ≡ length named.now) }
    ensures right { OnOk result (AreRows named.now rows.new.items) }
    ensures filled { OnOk result (IsFilled rows.new.items c) }
    ensures kept { OnOk result ((d : _) → IsFilled rows.old.items d → IsFilled rows.new.items d) }
{
    if rows[c].len() == 0 {
        for e in named[c].as_slice() {
            fill(alloc, named, rows, *e as usize, left - 1)?;
        }
        let row = joined(alloc, rows, named[c].as_slice(), c)?;
        rows[c] = row;
    }
    Ok(())
}

fn without_rows(alloc: Global, count: usize) -> Result<Vec<Items<u64>>, AllocError>
    ensures same { IfOk result (λ rows. length rows.items ≡ count) }
    ensures none { IfOk result (λ rows. (c : _) → c < count → slice_get rows.items c ≡ Some []) }
{
    let mut rows = Vec::new(alloc);
    for _ in 0..count {
        rows.push(Items::new(alloc))?;
    }
    Ok(rows)
}

/// The sets of all classes.
pub fn all_rows(alloc: Global, named: &[Items<u16>]) -> Result<Vec<Items<u64>>, AllocError>
    requires within { AreWithin named.now }
    requires all_end { AllEnd named.now }
    ensures same { IfOk result (λ rows. length rows.items ≡ length named.now) }
    ensures right { IfOk result (λ rows. AreRows named.now rows.items) }
    ensures filled { IfOk result (λ rows. (c : _) → c < length named.now → IsFilled rows.items c) }
{
    let mut rows = without_rows(alloc, named.len())?;
    for c in 0..named.len() {
        fill(alloc, named, &mut rows, c, named.len())?;
    }
    Ok(rows)
}
