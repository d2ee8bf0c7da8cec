//! Cuts a text into tokens.
#![tactic(auto)]

mod comment;
mod error;
mod escape;
pub mod fault;
mod input;
mod integer;
mod number;
mod open;
mod sign;
mod step;
mod text;
mod whole;
mod word;

ghost use Rattle.std.specs.Prelude.{◌≡◌, ◌≢◌, ◌<◌, ◌^◌, List, length, IfOk, IfErr, MatchOption, MatchResult};
ghost use Rattle.std.specs.Str.{IsUtf8, IsValidUpTo};
ghost use Rattle.dart_syntax.specs.declared.token.Token.{Token};
ghost use Rattle.dart_syntax.specs.Tokens.{TokenList};
ghost use Rattle.dart_lexer.specs.declared.error.LexError.{LexError};
ghost use Rattle.dart_lexer.specs.FirstFault.{FirstFault, Refused};

use crate::error::at_place;
use crate::whole::lex;
use dart_syntax::Token;
pub use error::LexError;
use sqlite_items::Items;
use std::alloc::Global;

/// The tokens of a text. Contracts see `Items` as the list of its elements.
pub fn tokens(alloc: Global, text: &[u8]) -> Result<Items<Token>, LexError>
    requires { length text.now < 2 ^ 32 }
    // What is answered is the token list of the text.
    ensures list { IfOk result (λ ts. TokenList text.now ts) }
    // Each token list of the text is that one, and a text that has one is refused only for want of memory.
    ensures only { (ts : List Token) → TokenList text.now ts → MatchResult result (λ us. us ≡ ts) (λ e. e ≡ LexError.NoMemory) }
    // Another refusal has its cause in the text, and its place there.
    ensures refused { IfErr result (λ e. e ≢ LexError.NoMemory → Refused text.now e) }
    // Where the text has such a cause, the answer is that refusal, or want of memory.
    ensures cause { (e : LexError) → Refused text.now e → MatchResult result (λ ts. ⊥) (λ d. d ≢ LexError.NoMemory → d ≡ e) }
{
    match not_utf8(text) {
        None => tokens_of(alloc, text),
        Some(at) => Err(LexError::NotUtf8 { at }),
    }
}

/// The tokens of a UTF-8 text, or its first fault.
fn tokens_of(alloc: Global, text: &[u8]) -> Result<Items<Token>, LexError>
    requires { length text.now < 2 ^ 32 }
    ensures list { IsUtf8 text.now → IfOk result (λ ts. TokenList text.now ts) }
    ensures only { (ts : List Token) → TokenList text.now ts → MatchResult result (λ us. us ≡ ts) (λ e. e ≡ LexError.NoMemory) }
    ensures fault { IsUtf8 text.now → IfErr result (λ e. e ≢ LexError.NoMemory → FirstFault text.now e) }
    ensures first { (e : LexError) → FirstFault text.now e → MatchResult result (λ ts. ⊥) (λ d. d ≢ LexError.NoMemory → d ≡ e) }
{
    match lex(alloc, text) {
        Ok(found) => Ok(found),
        Err(fault) => Err(at_place(text.len(), fault)),
    }
}

/// The length of the longest front that is UTF-8, unless all of the text is.
fn not_utf8(text: &[u8]) -> Option<u32>
    requires { length text.now < 2 ^ 32 }
    ensures { MatchOption result (IsUtf8 text.now) (λ at. ¬ IsUtf8 text.now × IsValidUpTo text.now at) }
{
    match str::from_utf8(text) {
        Ok(_) => None,
        Err(e) => Some(e.valid_up_to() as u32),
    }
}
