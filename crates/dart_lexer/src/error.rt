//! Why a text has no tokens.

ghost use Rattle.std.specs.Prelude.{◌≡◌, ◌<◌, ◌^◌};
ghost use Rattle.dart_lexer.specs.FirstFault.{at_place};

use crate::fault::Fault;

/// `at` is a byte place.
#[derive(Clone, Copy, Debug, PartialEq, Eq)]
pub enum LexError {
    NoMemory,
    /// `at` is the length of the longest front that is UTF-8.
    NotUtf8 { at: u32 },
    /// A character that begins no token, a bad escape, a `$` without a name or a brace, or `0x` without a digit.
    BadChar { at: u32 },
    /// A string that no quote closes on its line: where its opening quote stands.
    UnclosedString { at: u32 },
    /// A comment that nothing closes: where the outermost `/*` of it stands.
    UnclosedComment { at: u32 },
    /// A decimal above 2^63, or a hexadecimal from 2^64 on.
    WideInteger { at: u32 },
    ReservedWord { at: u32 },
}

/// The same fault of a text of `total` bytes, with its byte place.
pub fn at_place(total: usize, fault: Fault) -> LexError
    requires { total < 2 ^ 32 }
    ensures { result ≡ at_place total fault }
{
    match fault {
        Fault::NoMemory => LexError::NoMemory,
        Fault::BadChar(left) => LexError::BadChar {
            at: total.saturating_sub(left) as u32,
        },
        Fault::UnclosedString(left) => LexError::UnclosedString {
            at: total.saturating_sub(left) as u32,
        },
        Fault::UnclosedComment(left) => LexError::UnclosedComment {
            at: total.saturating_sub(left) as u32,
        },
        Fault::WideInteger(left) => LexError::WideInteger {
            at: total.saturating_sub(left) as u32,
        },
        Fault::ReservedWord(left) => LexError::ReservedWord {
            at: total.saturating_sub(left) as u32,
        },
    }
}
