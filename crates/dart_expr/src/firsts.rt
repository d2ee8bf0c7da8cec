//! What expressions begin with.

ghost use Rattle.std.specs.Prelude.{◌≡◌};
ghost use Rattle.std.specs.Option.{option_copied};
ghost use Rattle.dart_expr.specs.Firsts as firsts;

use dart_syntax::token::{Keyword, Sign, TokenKind};

fn keyword_starts(keyword: Keyword) -> bool
    ensures { result ≡ firsts.keyword_starts keyword }
{
    match keyword {
        Keyword::Null
        | Keyword::True
        | Keyword::False
        | Keyword::This
        | Keyword::Super
        | Keyword::Throw => true,
        _ => false,
    }
}

fn sign_starts(sign: Sign) -> bool
    ensures { result ≡ firsts.sign_starts sign }
{
    match sign {
        Sign::ParenOpen | Sign::BracketOpen => true,
        Sign::Minus | Sign::Not | Sign::Tilde => true,
        Sign::Increment | Sign::Decrement => true,
        _ => false,
    }
}

/// Whether an expression begins with the token.
pub fn begins(next: Option<&TokenKind>) -> bool
    ensures { result ≡ firsts.begins (option_copied next.entry) }
{
    match next {
        Some(TokenKind::Name(_) | TokenKind::Int(_)) => true,
        Some(TokenKind::Str(_) | TokenKind::StrOpen(_)) => true,
        Some(TokenKind::Keyword(keyword)) => keyword_starts(*keyword),
        Some(TokenKind::Sign(sign)) => sign_starts(*sign),
        _ => false,
    }
}

fn throws(next: Option<&TokenKind>) -> bool
    ensures { result ≡ firsts.throws (option_copied next.entry) }
{
    match next {
        Some(TokenKind::Keyword(Keyword::Throw)) => true,
        _ => false,
    }
}

fn is_least(next: Option<&TokenKind>) -> bool
    ensures { result ≡ firsts.is_least (option_copied next.entry) }
{
    match next {
        Some(TokenKind::MinInt) => true,
        _ => false,
    }
}

/// Whether what stands under a sign begins with the token.
pub(crate) fn begins_under(next: Option<&TokenKind>) -> bool
    ensures { result ≡ firsts.begins_under (option_copied next.entry) }
{
    is_least(next) || begins(next) && !throws(next)
}
