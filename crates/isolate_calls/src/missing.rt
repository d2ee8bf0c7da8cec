// Calls that find no member.
ghost use Rattle.std.specs.Prelude.{◌≡◌, ◌+◌, ◌<◌, ◌≤◌, ◌^◌, length, slice_get, Some, IfOk, OnOk};
ghost use Rattle.program.specs.Program.{parts_of};
ghost use Rattle.program.specs.declared.ids.SelectorId.{SelectorId};
ghost use Rattle.program.specs.declared.numbered.Target.TheVariants as target;
ghost use Rattle.dart_meaning.specs.Calls.{told_name};
ghost use Rattle.isolate_state.specs.State.{AreOf, IsHeld};
ghost use Rattle.isolate_calls.specs.Sending.{CanFollow, Followed, Invoked};

use code_pool::CodePool;
use ds_base::NoMemory;
use isolate_state::{Flow, Frame, Isolate, call_method};
use program::{MethodId, Numbered, Selector, SelectorKind, SiteId, Text};
use sqlite_items::Items;
use std::alloc::Global;

/// The name that an Invocation tells: that of a setter has a `=` behind it.
fn told_name(alloc: Global, sel: &Selector) -> Result<Text, NoMemory>
    ensures { IfOk result (λ name. name ≡ told_name sel.now.kind sel.now.name) }
{
    let mut name = Items::new(alloc);
    for b in sel.name.as_slice() {
        name.push(u16::from(*b))?;
    }
    if sel.kind == SelectorKind::Set {
        name.push(u16::from(b'='))?;
    }
    Ok(name)
}

/// Puts the Invocation of a call in the place of its arguments, above the receiver.
fn put_invocation(
    alloc: Global,
    isolate: &mut Isolate,
    sel: &Selector,
    n: usize,
) -> Result<(), NoMemory>
    requires some { 0 < n }
    requires operands { n ≤ length isolate.old.values.items }
    requires held { AreOf isolate.old }
    ensures { OnOk result (Invoked sel.now n isolate.old isolate.new) }
{
    let behind = isolate.values.len() - n + 1;
    let name = told_name(alloc, sel)?;
    let args = Vec::from_slice(alloc, &isolate.values[behind..])?;
    let v = isolate.heap.invocation(name, args, sel.kind)?;
    isolate.values.truncate(behind);
    isolate.values.push(v)?;
    Ok(())
}

/// The selector of a site.
fn selector_at<'a>(program: &'a Numbered, pool: &CodePool, site: SiteId) -> &'a Selector
    requires site { site.0 < length pool.now.sites }
    requires there { (k : SelectorId) → slice_get pool.now.sites site.0 ≡ Some k → k.0 < length program.now.selectors }
    ensures { (k : SelectorId) → slice_get pool.now.sites site.0 ≡ Some k → slice_get program.now.selectors k.0 ≡ Some result.now }
{
    &program.selectors.as_slice()[pool.site(site).0 as usize]
}

/// Calls a `noSuchMethod` with the Invocation of a call at a site.
#[inline(never)]
pub fn call_missing(
    alloc: Global,
    program: &Numbered,
    pool: &CodePool,
    isolate: &mut Isolate,
    frame: &mut Frame,
    turns: &mut u64,
    m: MethodId,
    site: SiteId,
    n: usize,
) -> Result<Flow, NoMemory>
    requires place { frame.old.place + 1 < 2 ^ 64 }
    requires some { 0 < n }
    requires operands { n ≤ length isolate.old.values.items }
    requires held { IsHeld (parts_of program.now) pool.now isolate.old }
    requires can { CanFollow (parts_of program.now) pool.now (target.Nsm m) site.0 n isolate.old frame.old turns.old }
    ensures { IfOk result (λ flow. Followed (parts_of program.now) pool.now (target.Nsm m) site.0 n isolate.old frame.old turns.old flow isolate.new frame.new turns.new) }
{
    let sel = selector_at(program, pool, site);
    put_invocation(alloc, isolate, sel, n)?;
    let flow = call_method(alloc, program, pool, isolate, frame, turns, m, 2)?;
    Ok(flow)
}
