// Scopes.
use dart_meaning::Seen;
use name_uses::Scope;
use std::test::Fail;

#[test]
fn a_closed_scope_means_what_it_meant(rt: HostRuntime) -> Result<(), Fail> {
    let mut scope = Scope::new(rt.alloc());
    scope.set(b"x", Seen::Ready(true))?;
    let mark = scope.mark();
    scope.set(b"x", Seen::Late)?;
    scope.set(b"y", Seen::Ready(false))?;
    assert!(rt; scope.look(b"x") == Some(Seen::Late));
    scope.close(mark)?;
    assert!(rt; scope.look(b"x") == Some(Seen::Ready(true)));
    assert!(rt; scope.look(b"y").is_none());
    Ok(())
}
