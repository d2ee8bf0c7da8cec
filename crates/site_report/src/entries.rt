// What the texts tell of entries.
ghost use Rattle.std.specs.Prelude.{◌≡◌, ◌++◌, length, map, OnOk, string_bytes, slice_get};
ghost use Rattle.std.specs.List.{flat_map, enumerate_from};
ghost use Rattle.isolate_run.specs.Ran.{ending_of};
ghost use Rattle.site_report.specs.Report.{trap_text, ending_text, told, told_by, printed, entry_head, entry_text, last_text, entry_line};

use byte_texts::{push, push_number, push_text};
use dart_values::Trap;
use ds_base::NoMemory;
use isolate_run::{Ended, Ending};
use program::Text;
use std::alloc::Global;

fn push_trap(alloc: Global, out: &mut Vec<u8>, trap: &Trap) -> Result<(), NoMemory>
    ensures { OnOk result (out.new.items ≡ out.old.items ++ trap_text trap.now) }
{
    match trap {
        Trap::TypeFault => push(out, b"TypeFault"),
        Trap::RangeFault => push(out, b"RangeFault"),
        Trap::DivideByZero => push(out, b"DivideByZero"),
        Trap::NegativeShift => push(out, b"NegativeShift"),
        Trap::NoSuchMethod(name) => {
            push(out, b"NoSuchMethod ")?;
            push_text(alloc, out, name.as_slice())
        }
        Trap::Thrown(text) => {
            push(out, b"Thrown ")?;
            push_text(alloc, out, text.as_slice())
        }
    }
}

fn push_ending(alloc: Global, out: &mut Vec<u8>, ending: &Ending) -> Result<(), NoMemory>
    ensures { OnOk result (out.new.items ≡ out.old.items ++ ending_text (ending_of ending.now)) }
{
    match ending {
        Ending::Done => push(out, b"done"),
        Ending::Threw(trap) => {
            push(out, b"threw ")?;
            push_trap(alloc, out, trap)
        }
        Ending::OutOfTurns => push(out, b"out of turns"),
        Ending::StackOverflow => push(out, b"stack overflow"),
    }
}

#[tactic(auto, unfolding(crate::specs::Report::printed))]
fn push_lines(alloc: Global, out: &mut Vec<u8>, lines: &[Text]) -> Result<(), NoMemory>
    ensures { OnOk result (out.new.items ≡ out.old.items ++ printed lines.now) }
{
    for line in lines {
        push_text(alloc, out, line.as_slice())?;
        push(out, b"\n")?;
    }
    Ok(())
}

#[tactic(auto, unfolding(crate::specs::Report::entry_head))]
fn push_head(out: &mut Vec<u8>, number: usize, name: &str) -> Result<(), NoMemory>
    ensures { OnOk result (out.new.items ≡ out.old.items ++ entry_head number name.now) }
{
    push(out, b"entry ")?;
    push_number(out, number)?;
    push(out, b" ")?;
    push(out, name.as_bytes())
}

#[tactic(auto, unfolding(crate::specs::Report::entry_text))]
fn push_entry(
    alloc: Global,
    out: &mut Vec<u8>,
    number: usize,
    name: &str,
    ended: &Ended,
) -> Result<(), NoMemory>
    ensures { OnOk result (out.new.items ≡ out.old.items ++ entry_text (number, told (name.now, ended.now))) }
{
    push_head(out, number, name)?;
    push(out, b"\n")?;
    push_lines(alloc, out, &ended.lines)?;
    push(out, b"end ")?;
    push_ending(alloc, out, &ended.ending)?;
    push(out, b"\n")
}

/// The part of each entry in the text of `run`.
pub fn push_entries(
    alloc: Global,
    out: &mut Vec<u8>,
    names: &[String],
    ended: &[Ended],
) -> Result<(), NoMemory>
    requires { length names.now ≡ length ended.now }
    ensures { OnOk result (out.new.items ≡ out.old.items ++ flat_map entry_text (enumerate_from 0 (told_by (map string_bytes names.now) ended.now))) }
{
    for number in 0..names.len() {
        push_entry(alloc, out, number, names[number].as_str(), &ended[number])?;
    }
    Ok(())
}

#[tactic(auto, unfolding(crate::specs::Report::last_text))]
fn push_last(alloc: Global, out: &mut Vec<u8>, lines: &[Text]) -> Result<(), NoMemory>
    ensures { OnOk result (out.new.items ≡ out.old.items ++ last_text lines.now) }
{
    let Some(line) = lines.last() else {
        return Ok(());
    };
    push(out, b" last ")?;
    push_text(alloc, out, line.as_slice())
}

#[tactic(auto, unfolding(crate::specs::Report::entry_line))]
fn push_line(
    alloc: Global,
    out: &mut Vec<u8>,
    number: usize,
    name: &str,
    ended: &Ended,
) -> Result<(), NoMemory>
    ensures { OnOk result (out.new.items ≡ out.old.items ++ entry_line (number, told (name.now, ended.now))) }
{
    push_head(out, number, name)?;
    push(out, b" lines ")?;
    let lines = ended.lines.as_slice();
    push_number(out, lines.len())?;
    push_last(alloc, out, lines)?;
    push(out, b" end ")?;
    push_ending(alloc, out, &ended.ending)?;
    push(out, b"\n")
}

/// The line of each entry in the text of `load`.
pub fn push_entry_lines(
    alloc: Global,
    out: &mut Vec<u8>,
    names: &[String],
    ended: &[Ended],
) -> Result<(), NoMemory>
    requires { length names.now ≡ length ended.now }
    ensures { OnOk result (out.new.items ≡ out.old.items ++ flat_map entry_line (enumerate_from 0 (told_by (map string_bytes names.now) ended.now))) }
{
    for number in 0..names.len() {
        push_line(alloc, out, number, names[number].as_str(), &ended[number])?;
    }
    Ok(())
}
