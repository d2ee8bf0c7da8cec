//! The text of statements.

ghost use Rattle.std.specs.Prelude.{◌≡◌, ◌++◌, OnOk, map, option_map};
ghost use Rattle.dart_syntax.specs.Syntax.{stas};
ghost use Rattle.dart_syntax.specs.View.{exp, sta, local, first_part};
ghost use Rattle.dart_syntax.specs.Text.{option_text, value_text, local_text, first_text, sta_text, stas_text, block_text};

use crate::expr::{print_expr, print_exprs, print_test};
use crate::words::put;
use dart_syntax::tree::{Expr, First, Local, Stmt};
use std::alloc::{AllocError, Global};

fn print_option(alloc: Global, out: &mut Vec<u8>, x: &Option<Expr>) -> Result<(), AllocError>
    ensures { OnOk result (out.new.items ≡ out.old.items ++ option_text (option_map exp x.now)) }
{
    match x {
        None => Ok(()),
        Some(x) => print_expr(alloc, out, x),
    }
}

fn print_value(alloc: Global, out: &mut Vec<u8>, x: &Option<Expr>) -> Result<(), AllocError>
    ensures { OnOk result (out.new.items ≡ out.old.items ++ value_text (option_map exp x.now)) }
{
    match x {
        None => Ok(()),
        Some(x) => {
            put(out, b"=")?;
            print_expr(alloc, out, x)
        }
    }
}

/// A local, a field or a top-level variable.
pub fn print_local(alloc: Global, out: &mut Vec<u8>, x: &Local) -> Result<(), AllocError>
    ensures { OnOk result (out.new.items ≡ out.old.items ++ local_text (local x.now)) }
{
    if x.is_final {
        put(out, b"final")?;
    } else {
        put(out, b"var")?;
    }
    put(out, x.name.text.as_slice())?;
    print_value(alloc, out, &x.value)?;
    put(out, b";")
}

fn print_first(alloc: Global, out: &mut Vec<u8>, x: &First) -> Result<(), AllocError>
    ensures { OnOk result (out.new.items ≡ out.old.items ++ first_text (first_part x.now)) }
{
    match x {
        First::Nothing => put(out, b";"),
        First::Local(x) => print_local(alloc, out, x),
        First::Run(x) => {
            print_expr(alloc, out, x)?;
            put(out, b";")
        }
    }
}

/// The text of a statement.
#[cycle(print)]
fn print_stmt(alloc: Global, out: &mut Vec<u8>, x: &Stmt) -> Result<(), AllocError>
    ensures { OnOk result (out.new.items ≡ out.old.items ++ sta_text (sta x.now)) }
{
    match x {
        Stmt::Block(all) => {
            put(out, b"{")?;
            print_stmts(alloc, out, all.as_slice())?;
            put(out, b"}")
        }
        Stmt::Local(x) => print_local(alloc, out, x),
        Stmt::Run(x) => {
            print_expr(alloc, out, x)?;
            put(out, b";")
        }
        Stmt::Empty => put(out, b";"),
        Stmt::If(test, then, None) => {
            put(out, b"if")?;
            print_test(alloc, out, test)?;
            print_stmt(alloc, out, then.get())
        }
        Stmt::If(test, then, Some(other)) => {
            put(out, b"if")?;
            print_test(alloc, out, test)?;
            print_stmt(alloc, out, then.get())?;
            put(out, b"else")?;
            print_stmt(alloc, out, other.get())
        }
        Stmt::While(test, body) => {
            put(out, b"while")?;
            print_test(alloc, out, test)?;
            print_stmt(alloc, out, body.get())
        }
        Stmt::Do(body, test) => {
            put(out, b"do")?;
            print_stmt(alloc, out, body.get())?;
            put(out, b"while")?;
            print_test(alloc, out, test)?;
            put(out, b";")
        }
        Stmt::For(first, test, last, body) => {
            put(out, b"for")?;
            put(out, b"(")?;
            print_first(alloc, out, first)?;
            print_option(alloc, out, test)?;
            put(out, b";")?;
            print_exprs(alloc, out, last.as_slice())?;
            put(out, b")")?;
            print_stmt(alloc, out, body.get())
        }
        Stmt::Break(_) => {
            put(out, b"break")?;
            put(out, b";")
        }
        Stmt::Continue(_) => {
            put(out, b"continue")?;
            put(out, b";")
        }
        Stmt::Return(_, x) => {
            put(out, b"return")?;
            print_option(alloc, out, x)?;
            put(out, b";")
        }
    }
}

#[cycle(print)]
fn print_stmts(alloc: Global, out: &mut Vec<u8>, all: &[Stmt]) -> Result<(), AllocError>
    ensures { OnOk result (out.new.items ≡ out.old.items ++ stas_text (stas (map sta all.now))) }
{
    for x in all {
        print_stmt(alloc, out, x)?;
    }
    Ok(())
}

pub fn print_block(alloc: Global, out: &mut Vec<u8>, all: &[Stmt]) -> Result<(), AllocError>
    ensures { OnOk result (out.new.items ≡ out.old.items ++ block_text (stas (map sta all.now))) }
{
    put(out, b"{")?;
    print_stmts(alloc, out, all)?;
    put(out, b"}")
}
