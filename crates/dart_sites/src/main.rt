//! `dart_sites`: runs programs in a profile of Dart, and reports the call sites of each run.
#![tactic(auto)]

mod entries;
mod places;
mod reading;
mod refusals;
mod refusing;
mod running;
mod source;
mod status;
mod telling;
#[cfg(test)]
mod tests;
mod top;
mod words;
mod writing;

use crate::top::dart_sites_main;
use ds_base::{OpenGate, StdSink, StdSource};
use std::alloc::Global;
use std::env;
use std::process::ExitCode;
use std::rt::Env;

/// The exit code where the arguments can't be had as text.
const NO_ARGUMENTS: u8 = 99;

/// The arguments without the program's name.
fn words_of(rt: &(impl Env + AllocGlobal), alloc: Global) -> Option<Vec<String>> {
    let mut words = Vec::new(alloc);
    for word in env::args(rt).ok()?.skip(1) {
        words.push(word).ok()?;
    }
    Some(words)
}

fn main(rt: HostRuntime) -> ExitCode {
    let alloc = rt.alloc();
    let Some(words) = words_of(&rt, alloc) else {
        return ExitCode::from(NO_ARGUMENTS);
    };
    let mut source = StdSource::over(rt.stdin());
    let mut sink = StdSink::over(rt.stdout());
    let status = dart_sites_main(
        &rt,
        alloc,
        words.as_slice(),
        &mut source,
        &mut sink,
        &OpenGate,
    );
    ExitCode::from(status.code())
}
