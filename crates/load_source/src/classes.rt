// The classes of a load, a line each.
ghost use Rattle.std.specs.Prelude.{◌≡◌, ◌++◌, OnOk};
ghost use Rattle.load_source.specs.Generated.{next, numbered, each, parent, superclass, members, class_text, class_line};

use crate::text::{push, push_number};
use ds_base::NoMemory;

/// The pseudo-random number behind x, modulo 2^31.
fn next(x: u32) -> u32
    ensures { result ≡ next x }
{
    ((1_103_515_245 * u64::from(x) + 12345) % 2_147_483_648) as u32
}

fn push_superclass(out: &mut Vec<u8>, k: u32, x: u32) -> Result<(), NoMemory>
    ensures { OnOk result (out.new.items ≡ out.old.items ++ superclass k x) }
{
    if k == 0 {
        return Ok(());
    }
    push(out, b" extends C")?;
    push_number(out, x / 65536 % k)
}

fn push_members(out: &mut Vec<u8>, k: u32) -> Result<(), NoMemory>
    ensures { OnOk result (out.new.items ≡ out.old.items ++ members k) }
{
    if k % 3 == 2 {
        return push(out, b" {}\n");
    }
    push(out, b" { m(x) => x + ")?;
    push_number(out, k)?;
    push(out, b"; }\n")
}

/// The line of class k, where x is the pseudo-random number k.
fn push_class(out: &mut Vec<u8>, k: u32, x: u32) -> Result<(), NoMemory>
    ensures { OnOk result (out.new.items ≡ out.old.items ++ class_text k x) }
{
    push(out, b"class C")?;
    push_number(out, k)?;
    push_superclass(out, k, x)?;
    push_members(out, k)
}

pub fn push_classes(out: &mut Vec<u8>, number: u32, classes: u32) -> Result<(), NoMemory>
    ensures { OnOk result (out.new.items ≡ out.old.items ++ each (class_line number) classes) }
{
    let mut x = number;
    for k in 0..classes {
        push_class(out, k, x)?;
        x = next(x);
    }
    Ok(())
}
