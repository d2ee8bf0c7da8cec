// A law of compiled programs, for those who run them. The function does nothing.
ghost use Rattle.compiled_runs.specs.Laws.{CompiledCanRun};

/// The code of a program can run from each function that takes nothing.
pub fn compiled_can_run()
    ensures { CompiledCanRun }
{}
