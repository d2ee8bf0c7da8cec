//! Tokens and trees of the language: types, and the tables of words.
#![tactic(auto)]

pub mod byte_kind;
pub mod open;
pub mod same;
pub mod table;
pub mod token;
pub mod tree;

pub use byte_kind::ByteKind;
pub use open::Open;
pub use table::{keyword_table, reserved_words, sign_table};
pub use token::{Identifier, Keyword, Sign, Span, Token, TokenKind, Units};
pub use tree::{ClassDecl, Expr, Function, Member, Name, Param, Stmt, Top, Tree};
