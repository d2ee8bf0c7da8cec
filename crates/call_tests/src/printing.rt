// The canonical text of `main() { print(-0x10); }`: the minus is an operator, and the integer is decimal.
use dart_printer::print_tree;
use dart_syntax::token::Span;
use dart_syntax::tree::{Body, Expr, Function, Name, Stmt, Top, Tree, Unary};
use sqlite_items::{Boxed, Items};
use std::alloc::{AllocError, Global};
use std::test::Fail;

const NOWHERE: Span = Span { start: 0, end: 0 };

fn name(alloc: Global, text: &[u8]) -> Result<Name, AllocError> {
    let text = Items::from_slice(alloc, text)?;
    Ok(Name {
        text,
        span: NOWHERE,
    })
}

#[test]
fn canonical_text(rt: HostRuntime) -> Result<(), Fail> {
    let alloc = rt.alloc();
    let mut args = Items::new(alloc);
    let number = Boxed::new(alloc, Expr::Int(16, NOWHERE))?;
    args.push(Expr::Unary(Unary::Minus, NOWHERE, number))?;
    let mut body = Items::new(alloc);
    body.push(Stmt::Run(Expr::Call(name(alloc, b"print")?, args)))?;
    let mut tops = Items::new(alloc);
    tops.push(Top::Function(Function {
        name: name(alloc, b"main")?,
        is_entry: false,
        params: Items::new(alloc),
        body: Body::Block(body),
    }))?;
    let text = print_tree(alloc, &Tree { tops }).ok().ok_or("no text")?;
    assert_eq!(rt;
        text.as_slice(),
        b"main ( ) { print ( - 16 ) ; }\n".as_slice()
    );
    Ok(())
}
