// The numbered program of a text: its lists, its entries and its call sites.
use dart_lexer::tokens;
use dart_parser::parse;
use program::{Numbered, SitePlace};
use resolver::resolve;
use std::alloc::Global;
use std::test::Fail;

fn program(alloc: Global, text: &str) -> Result<Numbered, Fail> {
    let text = text.as_bytes();
    if text.len() >= 1_000 {
        return Err("a long text".into());
    }
    let list = match tokens(alloc, text) {
        Ok(list) => list,
        Err(_) => return Err("no tokens".into()),
    };
    let tree = match parse(alloc, list.as_slice()) {
        Ok(tree) => tree,
        Err(_) => return Err("no tree".into()),
    };
    match resolve(alloc, &tree, text) {
        Ok(program) => Ok(program),
        Err(_) => Err("refused".into()),
    }
}

/// The number, the name and the arguments of a site's selector, with the site's line and column. What `print` and a list's text do has none.
fn site(program: &Numbered, at: usize) -> Option<(u16, &[u8], u32, u32, u32)> {
    let site = program.sites.get(at)?;
    let selector = program.selectors.get(site.selector.0 as usize)?;
    let (line, column) = match site.place {
        SitePlace::At { line, column } => (line, column),
        SitePlace::Print | SitePlace::List => (0, 0),
    };
    Some((
        site.selector.0,
        selector.name.as_slice(),
        selector.count,
        line,
        column,
    ))
}

#[test]
fn sites_and_selectors_are_numbered(rt: HostRuntime) -> Result<(), Fail> {
    let program = program(
        rt.alloc(),
        "class A { m(x) => x + 1; }\nclass B extends A {}\nmain() { print(B().m(2)); }",
    )?;
    assert_eq!(rt; program.classes.len(), 9);
    assert_eq!(rt; program.methods.len(), 50);
    assert_eq!(rt; program.selectors.len(), 3);
    assert_eq!(rt; program.sites.len(), 4);
    assert!(rt; program.entry_of("main").is_some());
    assert!(rt; program.entry_of("m").is_none());
    for (at, number, name, count, line, column) in [
        (0, 0, "+", 1, 1, 21),
        (1, 1, "m", 1, 3, 20),
        (2, 2, "toString", 0, 0, 0),
        (3, 2, "toString", 0, 0, 0),
    ] {
        assert_eq!(rt;
            site(&program, at),
            Some((number, name.as_bytes(), count, line, column))
        );
    }
    Ok(())
}
