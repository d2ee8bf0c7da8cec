// The hierarchy of the built-in classes.
use class_table::ClassTable;
use program::{ClassId, built_in_program};
use std::test::Fail;

#[test]
fn tells_of_the_built_in_classes(rt: HostRuntime) -> Result<(), Fail> {
    let program = built_in_program(rt.alloc())?;
    let table = ClassTable::build(rt.alloc(), &program)?;
    assert_eq!(rt; table.count(), 7);
    let (object, int) = (ClassId(0), ClassId(3));
    assert_eq!(rt; table.name(int), "int");
    assert_eq!(rt; table.parent(object), None);
    assert_eq!(rt; table.parent(int), Some(object));
    assert!(rt; !table.is_abstract(int));
    assert_eq!(rt; table.last_of(object), ClassId(6));
    assert_eq!(rt; table.last_of(int), int);
    assert!(rt; table.is_subclass(int, object) && !table.is_subclass(object, int));
    assert!(rt; table.is_subtype(int, object) && !table.is_subtype(object, int));
    Ok(())
}
