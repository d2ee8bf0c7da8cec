// The target of a call on a built-in class.
use method_lookup::Linked;
use program::{ClassId, MethodId, SelectorId, Target, built_in_program};
use std::test::Fail;

#[test]
fn finds_the_built_in_members(rt: HostRuntime) -> Result<(), Fail> {
    let program = built_in_program(rt.alloc())?;
    let linked = Linked::build(rt.alloc(), program)?;
    assert_eq!(rt; linked.classes().count(), 7);
    assert_eq!(rt; linked.program().classes.len(), 7);
    assert_eq!(rt; linked.program().selectors.len(), 1);
    let to_string = SelectorId(0);
    assert_eq!(rt;
        linked.target_of(ClassId(0), to_string),
        Target::Method(MethodId(1))
    );
    assert_eq!(rt;
        linked.target_of(ClassId(3), to_string),
        Target::Method(MethodId(26))
    );
    assert_eq!(rt;
        linked.target_of(ClassId(6), to_string),
        Target::Method(MethodId(1))
    );
    Ok(())
}
