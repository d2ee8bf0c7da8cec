// A list that has a tree, and one that has none. The texts of tests/texts go through the lexer, too.
use dart_parser::{ParseError, parse};
use dart_syntax::token::{Sign, Span, Token, TokenKind};
use sqlite_items::Items;
use std::test::Fail;

fn token(kind: TokenKind) -> Token {
    let span = Span { start: 0, end: 0 };
    Token { kind, span }
}

#[test]
fn reads_a_function_and_refuses_a_sign(rt: HostRuntime) -> Result<(), Fail> {
    let alloc = rt.alloc();
    let mut list = Vec::new(alloc);
    list.push(token(TokenKind::Name(Items::from_slice(alloc, b"f")?)))?;
    for sign in [
        Sign::ParenOpen,
        Sign::ParenClose,
        Sign::BraceOpen,
        Sign::BraceClose,
    ] {
        list.push(token(TokenKind::Sign(sign)))?;
    }
    list.push(token(TokenKind::End))?;
    let tree = parse(alloc, list.as_slice()).ok().ok_or("no tree")?;
    assert_eq!(rt; tree.tops.len(), 1);
    let refused = parse(alloc, &list[1..]).err();
    assert_eq!(rt; refused, Some(ParseError::Syntax { token: 0 }));
    Ok(())
}
