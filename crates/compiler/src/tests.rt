use crate::compile;
use ds_base::NoMemory;
use program::built_in_program;

#[test]
fn compiles_the_built_in_program(rt: HostRuntime) -> Result<(), NoMemory> {
    let program = built_in_program(rt.alloc())?;
    compile(rt.alloc(), &program)?;
    Ok(())
}
