//! The text of expressions.

ghost use Rattle.std.specs.Prelude.{◌≡◌, ◌++◌, OnOk, map};
ghost use Rattle.dart_syntax.specs.Syntax.{exps, pieces, links, selectors};
ghost use Rattle.dart_syntax.specs.View.{exp, piece, link, selector};
ghost use Rattle.dart_syntax.specs.Text.{exp_text, exps_text, pieces_text, links_text, selectors_text, selector_text, closing, test_text};

use crate::words::{put, put_assignment, put_binary, put_int, put_piece, put_step, put_unary};
use dart_syntax::tree::{Expr, Link, Piece, Selector};
use std::alloc::{AllocError, Global};

/// The text of an expression.
#[cycle(print)]
pub fn print_expr(alloc: Global, out: &mut Vec<u8>, x: &Expr) -> Result<(), AllocError>
    ensures { OnOk result (out.new.items ≡ out.old.items ++ exp_text (exp x.now)) }
{
    match x {
        Expr::Null(_) => put(out, b"null"),
        Expr::Bool(true, _) => put(out, b"true"),
        Expr::Bool(false, _) => put(out, b"false"),
        Expr::Int(n, _) => put_int(alloc, out, *n),
        Expr::MinInt(_) => put(out, b"9223372036854775808"),
        Expr::This(_) => put(out, b"this"),
        Expr::Str(units, _) => put_piece(out, b"'", units.as_slice(), b"'"),
        Expr::Joined(units, _, more) => {
            put_piece(out, b"'", units.as_slice(), closing(more.as_slice()))?;
            print_pieces(alloc, out, more.as_slice())
        }
        Expr::Name(name) => put(out, name.text.as_slice()),
        Expr::Call(name, args) => {
            put(out, name.text.as_slice())?;
            put(out, b"(")?;
            print_exprs(alloc, out, args.as_slice())?;
            put(out, b")")
        }
        Expr::SuperGet(_, name) => {
            put(out, b"super")?;
            put(out, b".")?;
            put(out, name.text.as_slice())
        }
        Expr::SuperCall(_, name, args) => {
            put(out, b"super")?;
            put(out, b".")?;
            put(out, name.text.as_slice())?;
            put(out, b"(")?;
            print_exprs(alloc, out, args.as_slice())?;
            put(out, b")")
        }
        Expr::Paren(x) => {
            put(out, b"(")?;
            print_expr(alloc, out, x.get())?;
            put(out, b")")
        }
        Expr::List(_, items) => {
            put(out, b"[")?;
            print_exprs(alloc, out, items.as_slice())?;
            put(out, b"]")
        }
        Expr::Postfix(x, more) => {
            print_expr(alloc, out, x.get())?;
            print_selectors(alloc, out, more.as_slice())
        }
        Expr::Step(true, step, _, x) => {
            put_step(out, *step)?;
            print_expr(alloc, out, x.get())
        }
        Expr::Step(false, step, _, x) => {
            print_expr(alloc, out, x.get())?;
            put_step(out, *step)
        }
        Expr::Unary(operator, _, x) => {
            put_unary(out, *operator)?;
            print_expr(alloc, out, x.get())
        }
        Expr::Chain(x, more) => {
            print_expr(alloc, out, x.get())?;
            print_links(alloc, out, more.as_slice())
        }
        Expr::Is(x, false, _, name) => {
            print_expr(alloc, out, x.get())?;
            put(out, b"is")?;
            put(out, name.text.as_slice())
        }
        Expr::Is(x, true, _, name) => {
            print_expr(alloc, out, x.get())?;
            put(out, b"is")?;
            put(out, b"!")?;
            put(out, name.text.as_slice())
        }
        Expr::Cond(x, y, z) => {
            print_expr(alloc, out, x.get())?;
            put(out, b"?")?;
            print_expr(alloc, out, y.get())?;
            put(out, b":")?;
            print_expr(alloc, out, z.get())
        }
        Expr::Assign(x, operator, _, y) => {
            print_expr(alloc, out, x.get())?;
            put_assignment(out, *operator)?;
            print_expr(alloc, out, y.get())
        }
        Expr::Throw(_, x) => {
            put(out, b"throw")?;
            print_expr(alloc, out, x.get())
        }
    }
}

/// Expressions with commas between.
#[cycle(print)]
pub fn print_exprs(alloc: Global, out: &mut Vec<u8>, all: &[Expr]) -> Result<(), AllocError>
    ensures { OnOk result (out.new.items ≡ out.old.items ++ exps_text (exps (map exp all.now))) }
{
    for (i, x) in all.iter().enumerate() {
        if i > 0 {
            put(out, b",")?;
        }
        print_expr(alloc, out, x)?;
    }
    Ok(())
}

/// What the piece of a string before these ends in.
fn closing(more: &[Piece<Expr>]) -> &'static [u8]
    ensures { result.now ≡ closing (pieces (map piece more.now)) }
{
    if more.is_empty() { b"'" } else { b"${" }
}

#[cycle(print)]
fn print_pieces(alloc: Global, out: &mut Vec<u8>, all: &[Piece<Expr>]) -> Result<(), AllocError>
    ensures { OnOk result (out.new.items ≡ out.old.items ++ pieces_text (pieces (map piece all.now))) }
{
    for (i, piece) in all.iter().enumerate() {
        print_expr(alloc, out, &piece.value)?;
        put_piece(out, b"}", piece.then.as_slice(), closing(&all[i + 1..]))?;
    }
    Ok(())
}

#[cycle(print)]
fn print_links(alloc: Global, out: &mut Vec<u8>, all: &[Link<Expr>]) -> Result<(), AllocError>
    ensures { OnOk result (out.new.items ≡ out.old.items ++ links_text (links (map link all.now))) }
{
    for link in all {
        put_binary(out, link.operator)?;
        print_expr(alloc, out, &link.operand)?;
    }
    Ok(())
}

#[cycle(print)]
fn print_selectors(alloc: Global, out: &mut Vec<u8>, all: &[Selector]) -> Result<(), AllocError>
    ensures { OnOk result (out.new.items ≡ out.old.items ++ selectors_text (selectors (map selector all.now))) }
{
    for selector in all {
        print_selector(alloc, out, selector)?;
    }
    Ok(())
}

#[cycle(print)]
fn print_selector(alloc: Global, out: &mut Vec<u8>, x: &Selector) -> Result<(), AllocError>
    ensures { OnOk result (out.new.items ≡ out.old.items ++ selector_text (selector x.now)) }
{
    match x {
        Selector::Member(name) => {
            put(out, b".")?;
            put(out, name.text.as_slice())
        }
        Selector::Invoke(name, args) => {
            put(out, b".")?;
            put(out, name.text.as_slice())?;
            put(out, b"(")?;
            print_exprs(alloc, out, args.as_slice())?;
            put(out, b")")
        }
        Selector::Index(_, x) => {
            put(out, b"[")?;
            print_expr(alloc, out, x)?;
            put(out, b"]")
        }
    }
}

/// An expression in parentheses.
pub fn print_test(alloc: Global, out: &mut Vec<u8>, x: &Expr) -> Result<(), AllocError>
    ensures { OnOk result (out.new.items ≡ out.old.items ++ test_text (exp x.now)) }
{
    put(out, b"(")?;
    print_expr(alloc, out, x)?;
    put(out, b")")
}
