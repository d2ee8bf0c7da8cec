//! Why a list has no tree.

ghost use Rattle.std.specs.Prelude.{◌≡◌, ◌↔◌};

use dart_expr::Refusal;

/// A token is named by its number in the list, from 0.
#[derive(Clone, Copy, Debug, PartialEq, Eq)]
pub enum ParseError {
    NoMemory,
    /// No text of the language goes on with this token.
    Syntax { token: usize },
    /// A statement or an expression that is nested too deep begins with this token.
    TooDeep { token: usize },
}

/// The refusal as it is told of a list of so many tokens.
pub(crate) fn placed(count: usize, refusal: Refusal) -> ParseError
    ensures { (result ≡ ParseError.NoMemory) ↔ (refusal ≡ Refusal.NoMemory) }
{
    match refusal {
        Refusal::NoMemory => ParseError::NoMemory,
        Refusal::Syntax(left) => ParseError::Syntax {
            token: count.saturating_sub(left),
        },
        Refusal::TooDeep(left) => ParseError::TooDeep {
            token: count.saturating_sub(left),
        },
    }
}
