//! A small load, compared whole.
use crate::generate;
use ds_base::NoMemory;

#[test]
fn generated_source(rt: HostRuntime) -> Result<(), NoMemory> {
    let text = generate(rt.alloc(), 7, 3, 4)?;
    let wanted = b"\
class C0 { m(x) => x + 0; }
class C1 extends C0 { m(x) => x + 1; }
class C2 extends C0 {}
all() {
  var a = [];
  a.add(C0());
  a.add(C1());
  a.add(C2());
  return a;
}
work(s, n) {
  var a = all();
  var i = 0;
  while (i < n) {
    s = s + a[(i * 7 + s) % a.length].m(i);
    i = i + 1;
  }
  return s;
}
@pragma('vm:entry-point')
e0() { print(work(0, 4)); }
@pragma('vm:entry-point')
e1() { print(work(1, 4)); }
@pragma('vm:entry-point')
e2() { print(work(2, 4)); }
@pragma('vm:entry-point')
e3() { print(work(3, 4)); }
";
    assert!(rt; text.as_slice() == wanted.as_slice());
    Ok(())
}
