use crate::{CodePool, Constant, MethodBody};
use code_unit::{Instr, Unit};
use program::{EntryId, MethodId, NativeId, SelectorId, SiteId, UnitId};
use sqlite_items::Items;
use std::alloc::AllocError;

/// Workers share it.
fn is_shared<T: Send + Sync>(_: &T) {}

#[test]
fn gives_what_it_was_built_of(rt: HostRuntime) -> Result<(), AllocError> {
    let alloc = rt.alloc();
    let unit = Unit {
        code: Items::from_slice(alloc, &[Instr::Const(0), Instr::Return])?,
        depths: Items::from_slice(alloc, &[0, 1])?,
        params: 0,
        defaults: Items::new(alloc),
        locals: 0,
    };
    let pool = CodePool::build(
        vec![in alloc; unit]?,
        vec![in alloc; Constant::Int(7)]?,
        vec![in alloc; UnitId(0)]?,
        vec![in alloc; SelectorId(3)]?,
        vec![in alloc; UnitId(0)]?,
        vec![in alloc; MethodBody::Native(NativeId(5))]?,
    );
    assert!(rt; pool.unit(UnitId(0)).code.len() == 2);
    assert!(rt; matches!(pool.constant(0), Constant::Int(7)));
    assert!(rt; pool.static_target(0) == UnitId(0));
    assert!(rt; pool.site(SiteId(0)) == SelectorId(3));
    assert!(rt; pool.entry_unit(EntryId(0)) == UnitId(0));
    assert!(rt; pool.method_unit(MethodId(0)) == MethodBody::Native(NativeId(5)));
    is_shared(&pool);
    Ok(())
}
