// The tree of the bytes of a source, or why they have none.
ghost use Rattle.std.specs.Prelude.{◌≡◌, ◌≢◌, ◌≤◌, List, length, IfOk, MatchOption, true};
ghost use Rattle.dart_syntax.specs.declared.token.Token.{Token};
ghost use Rattle.dart_syntax.specs.Tokens.{TokenList};
ghost use Rattle.dart_sites.specs.Source.{kind_name, refusal_of, is_of_grammar, refusal_line, ReadSays};

use crate::places::push_place;
use byte_texts::push;
use dart_lexer::{LexError, tokens};
use dart_parser::{ParseError, parse};
use dart_syntax::{Token, Tree};
use ds_base::NoMemory;
use std::alloc::Global;

/// Why bytes are no source.
#[derive(Clone, Copy, Debug, PartialEq, Eq)]
pub enum RefusalKind {
    NotUtf8,
    BadChar,
    UnclosedString,
    UnclosedComment,
    WideInteger,
    ReservedWord,
    Syntax,
    TooDeep,
}

impl RefusalKind {
    fn name(self) -> &'static str
        ensures { result.now ≡ kind_name self }
    {
        match self {
            RefusalKind::NotUtf8 => "NotUtf8",
            RefusalKind::BadChar => "BadChar",
            RefusalKind::UnclosedString => "UnclosedString",
            RefusalKind::UnclosedComment => "UnclosedComment",
            RefusalKind::WideInteger => "WideInteger",
            RefusalKind::ReservedWord => "ReservedWord",
            RefusalKind::Syntax => "Syntax",
            RefusalKind::TooDeep => "TooDeep",
        }
    }
}

/// Why bytes are no source, and the byte place at which that is seen.
#[derive(Clone, Copy, Debug, PartialEq, Eq)]
pub struct Refusal {
    pub kind: RefusalKind,
    pub at: u32,
}

/// What reading the bytes gave.
pub enum Read {
    Tree(Tree),
    Refused(Refusal),
    NoMemory,
}

fn refusal_of(e: LexError) -> Option<Refusal>
    ensures { result ≡ refusal_of e }
{
    let (kind, at) = match e {
        LexError::NoMemory => return None,
        LexError::NotUtf8 { at } => (RefusalKind::NotUtf8, at),
        LexError::BadChar { at } => (RefusalKind::BadChar, at),
        LexError::UnclosedString { at } => (RefusalKind::UnclosedString, at),
        LexError::UnclosedComment { at } => (RefusalKind::UnclosedComment, at),
        LexError::WideInteger { at } => (RefusalKind::WideInteger, at),
        LexError::ReservedWord { at } => (RefusalKind::ReservedWord, at),
    };
    Some(Refusal { kind, at })
}

/// The place of a token. The list ends with the end token.
fn place_of(list: &[Token], token: usize) -> u32 {
    match list.get(token) {
        Some(token) => token.span.start,
        None => 0,
    }
}

fn grammar_refusal(list: &[Token], e: ParseError) -> Option<Refusal>
    ensures { MatchOption result (e ≡ ParseError.NoMemory) (λ r. (e ≢ ParseError.NoMemory) × (is_of_grammar r.kind ≡ true)) }
{
    let (kind, token) = match e {
        ParseError::NoMemory => return None,
        ParseError::Syntax { token } => (RefusalKind::Syntax, token),
        ParseError::TooDeep { token } => (RefusalKind::TooDeep, token),
    };
    let at = place_of(list, token);
    Some(Refusal { kind, at })
}

/// The tree of the token list of the bytes.
fn parsed(alloc: Global, source: &[u8], list: &[Token]) -> Read
    requires tokens { TokenList source.now list.now }
    requires only { (ts : List Token) → TokenList source.now ts → list.now ≡ ts }
    ensures { ReadSays source.now result }
{
    match parse(alloc, list) {
        Ok(tree) => Read::Tree(tree),
        Err(e) => match grammar_refusal(list, e) {
            Some(refusal) => Read::Refused(refusal),
            None => Read::NoMemory,
        },
    }
}

/// The tree of the bytes.
pub fn read_tree(alloc: Global, source: &[u8]) -> Read
    requires { length source.now ≤ 1048576 }
    ensures { ReadSays source.now result }
{
    match tokens(alloc, source) {
        Ok(list) => parsed(alloc, source, list.as_slice()),
        Err(e) => match refusal_of(e) {
            Some(refusal) => Read::Refused(refusal),
            None => Read::NoMemory,
        },
    }
}

/// The line of a refusal.
pub fn refusal_line(alloc: Global, source: &[u8], refusal: Refusal) -> Result<Vec<u8>, NoMemory>
    requires { length source.now ≤ 1048576 }
    ensures { IfOk result (λ line. line.items ≡ refusal_line source.now refusal) }
{
    let mut line = Vec::new(alloc);
    push(&mut line, b"refused: ")?;
    push(&mut line, refusal.kind.name().as_bytes())?;
    push(&mut line, b" at ")?;
    push_place(&mut line, source, refusal.at as usize)?;
    push(&mut line, b"\n")?;
    Ok(line)
}
