// The functions of a load: the list of its objects, the calls on them, and the entry points.
ghost use Rattle.std.specs.Prelude.{◌≡◌, ◌++◌, OnOk};
ghost use Rattle.load_source.specs.Generated.{each, add_line, all_text, work_text, entry};

use crate::text::{push, push_number};
use ds_base::NoMemory;

fn push_add(out: &mut Vec<u8>, k: u32) -> Result<(), NoMemory>
    ensures { OnOk result (out.new.items ≡ out.old.items ++ add_line k) }
{
    push(out, b"  a.add(C")?;
    push_number(out, k)?;
    push(out, b"());\n")
}

#[tactic(auto, using(crate::proofs::Steps::each_next))]
fn push_adds(out: &mut Vec<u8>, classes: u32) -> Result<(), NoMemory>
    ensures { OnOk result (out.new.items ≡ out.old.items ++ each add_line classes) }
{
    for k in 0..classes {
        push_add(out, k)?;
    }
    Ok(())
}

/// A list with an object of each class.
pub fn push_all(out: &mut Vec<u8>, classes: u32) -> Result<(), NoMemory>
    ensures { OnOk result (out.new.items ≡ out.old.items ++ all_text classes) }
{
    push(out, b"all() {\n  var a = [];\n")?;
    push_adds(out, classes)?;
    push(out, b"  return a;\n}\n")
}

/// Calls of m on these objects.
pub fn push_work(out: &mut Vec<u8>) -> Result<(), NoMemory>
    ensures { OnOk result (out.new.items ≡ out.old.items ++ work_text) }
{
    push(
        out,
        b"\
work(s, n) {
  var a = all();
  var i = 0;
  while (i < n) {
    s = s + a[(i * 7 + s) % a.length].m(i);
    i = i + 1;
  }
  return s;
}
",
    )
}

/// The entry point with a number, which makes so many calls.
fn push_entry(out: &mut Vec<u8>, calls: u32, k: u32) -> Result<(), NoMemory>
    ensures { OnOk result (out.new.items ≡ out.old.items ++ entry calls k) }
{
    push(out, b"@pragma('vm:entry-point')\ne")?;
    push_number(out, k)?;
    push(out, b"() { print(work(")?;
    push_number(out, k)?;
    push(out, b", ")?;
    push_number(out, calls)?;
    push(out, b")); }\n")
}

#[tactic(auto, using(crate::proofs::Steps::each_next))]
pub fn push_entries(out: &mut Vec<u8>, calls: u32) -> Result<(), NoMemory>
    ensures { OnOk result (out.new.items ≡ out.old.items ++ each (entry calls) 4) }
{
    for k in 0..4 {
        push_entry(out, calls, k)?;
    }
    Ok(())
}
