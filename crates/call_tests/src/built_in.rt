// How many parts the program of the built-in classes has.
use program::built_in_program;
use std::test::Fail;

#[test]
fn has_the_built_in_parts(rt: HostRuntime) -> Result<(), Fail> {
    let program = built_in_program(rt.alloc())?;
    assert_eq!(rt; program.classes.len(), 7);
    assert_eq!(rt; program.methods.len(), 49);
    assert_eq!(rt; program.functions.len(), 0);
    assert_eq!(rt; program.selectors.len(), 1);
    assert_eq!(rt; program.sites.len(), 2);
    assert!(rt; program.entry_of("main").is_none());
    Ok(())
}
