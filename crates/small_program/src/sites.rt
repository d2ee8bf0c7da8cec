// The selectors and sites of a small program, and its statements.
ghost use Rattle.std.specs.Prelude.{◌≡◌, ◌≤◌, ◌<◌, ◌+◌, ◌++◌, ◌∷◌, [], ℕ, List, length, map, OnOk, IfOk, codes, All, position};
ghost use Rattle.std.specs.List.{list_any};
ghost use Rattle.small_program.specs.Numbering.{noted, noted_all, names_called, has_name, site_of, sites_with, statement_of, statements_from};

use crate::small::SmallPrint;
use program::{
    ClassId, Expression, Selector, SelectorId, SelectorKind, Site, SiteCall, SiteId, SitePlace,
    Statement,
};
use sqlite_items::{Boxed, Items};
use std::alloc::{AllocError, Global};

/// The number of the first class behind the built-in ones.
const FIRST: u16 = 7;

/// Where the selector of this name stands.
fn place_of(all: &[Selector], name: &[u8]) -> Option<usize>
    ensures { result ≡ position (has_name name.now) all.now }
{
    all.iter()
        .position(|selector| selector.name.as_slice() == name)
}

fn is_there(all: &[Selector], name: &[u8]) -> bool
    ensures { result ≡ list_any (has_name name.now) all.now }
{
    all.iter().any(|selector| selector.name.as_slice() == name)
}

/// Adds the selector of a call of this name, where it is new.
fn note(alloc: Global, all: &mut Items<Selector>, name: &[u8]) -> Result<(), AllocError>
    ensures { OnOk result (all.new ≡ noted all.old name.now) }
{
    if is_there(all.as_slice(), name) {
        return Ok(());
    }
    let name = Items::from_slice(alloc, name)?;
    all.push(Selector {
        kind: SelectorKind::Call,
        name,
        count: 0,
    })
}

/// The selectors of the statements and of the prelude, by first use.
pub fn selectors(alloc: Global, prints: &[SmallPrint]) -> Result<Items<Selector>, AllocError>
    ensures { IfOk result (λ all. all ≡ noted_all [] (names_called prints.now)) }
{
    let mut all = Items::new(alloc);
    for print in prints {
        note(alloc, &mut all, print.method.as_slice())?;
    }
    note(alloc, &mut all, b"toString")?;
    Ok(all)
}

/// A site that calls the selector of this name.
fn site(all: &[Selector], place: SitePlace, name: &[u8]) -> Site
    requires { length all.now ≤ 65536 }
    ensures { result ≡ site_of all.now place name.now }
{
    let number = place_of(all, name).unwrap_or(0);
    Site {
        selector: SelectorId(number as u16),
        place,
    }
}

/// The sites of the statements, and then those of the prelude.
pub fn sites(
    alloc: Global,
    all: &[Selector],
    prints: &[SmallPrint],
) -> Result<Items<Site>, AllocError>
    requires { length all.now ≤ 65536 }
    ensures { IfOk result (λ sites. sites ≡ sites_with all.now prints.now) }
{
    let mut sites = Items::new(alloc);
    for print in prints {
        let place = SitePlace::At {
            line: print.line,
            column: print.column,
        };
        sites.push(site(all, place, print.method.as_slice()))?;
    }
    sites.push(site(all, SitePlace::Print, b"toString"))?;
    sites.push(site(all, SitePlace::List, b"toString"))?;
    Ok(sites)
}

/// `print(C().method());` at a site.
fn statement(alloc: Global, number: u32, print: &SmallPrint) -> Result<Statement, AllocError>
    requires { print.now.class < 2041 }
    ensures { IfOk result (λ s. s ≡ statement_of number print.now) }
{
    let class = ClassId(FIRST + print.class);
    let mut calls = Items::new(alloc);
    calls.push(SiteCall {
        site: SiteId(number),
        arguments: Items::new(alloc),
    })?;
    let made = Boxed::new(alloc, Expression::New(class, Items::new(alloc)))?;
    let printed = Boxed::new(alloc, Expression::Postfix(made, calls))?;
    Ok(Statement::Run(Expression::Print(printed)))
}

/// The statements of `main`, each with the site of its number.
pub fn statements(alloc: Global, prints: &[SmallPrint]) -> Result<Items<Statement>, AllocError>
    requires few { length prints.now ≤ 2047 }
    requires classes { All (λ p. p.class < 2041) prints.now }
    ensures { IfOk result (λ all. all ≡ statements_from 0 prints.now) }
{
    let mut all = Items::new(alloc);
    for (number, print) in prints.iter().enumerate() {
        all.push(statement(alloc, number as u32, print)?)?;
    }
    Ok(all)
}
