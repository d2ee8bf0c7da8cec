//! Faults by a table, and texts that have tokens.

use dart_lexer::{LexError, tokens};
use dart_syntax::{Token, TokenKind};
use std::test::Fail;

/// Faults that no line of text can hold: bytes that are not UTF-8, and line ends.
#[test]
fn names_the_first_fault(rt: HostRuntime) {
    use LexError::{BadChar, NotUtf8, UnclosedString};
    let cases: [(&[u8], LexError); 11] = [
        (b"m\xFF", NotUtf8 { at: 1 }),
        (b"\xFF", NotUtf8 { at: 0 }),
        (b"# '\xC3", NotUtf8 { at: 3 }),
        (b"/* \xED\xA0\x80 */", NotUtf8 { at: 3 }),
        (b"'a\n'", UnclosedString { at: 0 }),
        (b"'a\r'", UnclosedString { at: 0 }),
        (b"'a\\\n'", UnclosedString { at: 0 }),
        (b"a'${b\n}'", UnclosedString { at: 1 }),
        (b"'${\"${a\n}\"}'", UnclosedString { at: 3 }),
        (b"'${ /* a \n */ }'", UnclosedString { at: 0 }),
        (b"'\\x4\n'", BadChar { at: 1 }),
    ];
    for (text, want) in cases {
        if text.len() < 100 {
            match tokens(rt.alloc(), text) {
                Ok(_) => assert!(rt; false, "a list at {want:?}"),
                Err(got) => assert_eq!(rt; got, want, "at {want:?}"),
            }
        }
    }
}

/// One byte for each token.
fn letter(kind: &TokenKind) -> u8 {
    match kind {
        TokenKind::Name(_) => b'n',
        TokenKind::Keyword(_) => b'k',
        TokenKind::Sign(_) => b's',
        TokenKind::Int(_) => b'i',
        TokenKind::MinInt => b'm',
        TokenKind::Str(_) => b'q',
        TokenKind::StrOpen(_) => b'(',
        TokenKind::StrMid(_) => b'|',
        TokenKind::StrClose(_) => b')',
        TokenKind::End => b'.',
    }
}

#[test]
fn cuts_texts_into_tokens(rt: HostRuntime) -> Result<(), Fail> {
    let cases: [(&str, &str); 18] = [
        ("", "."),
        (" \t\r\n", "."),
        ("a b", "nn."),
        ("/* a /* b */ */ x // y", "n."),
        ("// \u{E9} \u{1F600}\r/* \u{20AC} */", "."),
        ("'a'", "q."),
        ("'a${b}c'", "(n)."),
        ("'$a$this'", "(n|k)."),
        ("'${ { } }'", "(ss)."),
        ("'${\"${x}y$z\"}'", "((n|n))."),
        ("'${/* a */ '}'}'", "(q)."),
        ("}{", "ss."),
        ("9223372036854775808", "m."),
        ("0xFFFFFFFFFFFFFFFF", "i."),
        ("1a", "in."),
        ("a>>>=b>>>c>>=d", "nsnsnsn."),
        ("abstract dynamic get implements operator set", "kkkkkk."),
        ("'\u{E9}\\\u{E9}' \"it's\"", "qq."),
    ];
    for (text, want) in cases {
        if text.len() < 100 {
            let mut shape = Vec::new(rt.alloc());
            for token in tokens(rt.alloc(), text.as_bytes())?.as_slice() {
                shape.push(letter(&token.kind))?;
            }
            assert_eq!(rt; shape.as_slice(), want.as_bytes(), "of {text}");
        }
    }
    Ok(())
}

#[test]
fn gives_code_units(rt: HostRuntime) -> Result<(), Fail> {
    let cases: [(&str, &[u16]); 7] = [
        ("''", &[]),
        ("'a\u{E9}\u{20AC}'", &[0x61, 0xE9, 0x20AC]),
        ("'\u{1F600}'", &[0xD83D, 0xDE00]),
        (
            "'\\x4a\\u00Af\\u{1F600}\\u{41}'",
            &[0x4A, 0xAF, 0xD83D, 0xDE00, 0x41],
        ),
        ("'\\uD83D\\u{dc00}'", &[0xD83D, 0xDC00]),
        (
            "'\\n\\r\\f\\b\\t\\v\\'\\\\\\$'",
            &[10, 13, 12, 8, 9, 11, 39, 92, 36],
        ),
        ("'\\\u{1F600}\\q'", &[0xD83D, 0xDE00, 0x71]),
    ];
    for (text, want) in cases {
        if text.len() < 100 {
            let list = tokens(rt.alloc(), text.as_bytes())?;
            match list.as_slice() {
                [
                    Token {
                        kind: TokenKind::Str(units),
                        ..
                    },
                    _,
                ] => {
                    assert_eq!(rt; units.as_slice(), want, "of {text}");
                }
                _ => assert!(rt; false, "no string at {text}"),
            }
        }
    }
    Ok(())
}

#[test]
fn tells_byte_places(rt: HostRuntime) -> Result<(), Fail> {
    let want: [(u32, u32); 7] = [(0, 1), (2, 4), (4, 5), (5, 7), (7, 8), (8, 11), (12, 12)];
    let list = tokens(rt.alloc(), b"a '$b${1}c' ")?;
    assert_eq!(rt; list.len(), want.len());
    for (token, place) in list.as_slice().iter().zip(want.iter()) {
        assert_eq!(rt; (token.span.start, token.span.end), *place);
    }
    Ok(())
}
