//! What statements begin with.

ghost use Rattle.std.specs.Prelude.{◌≡◌};
ghost use Rattle.std.specs.Option.{option_copied};
ghost use Rattle.dart_parser.specs.Statements as firsts;

use dart_expr::firsts::begins;
use dart_syntax::token::{Keyword, Sign, TokenKind};

fn keyword_opens(keyword: Keyword) -> bool
    ensures { result ≡ firsts.keyword_opens keyword }
{
    match keyword {
        Keyword::Var | Keyword::Dynamic | Keyword::Final => true,
        Keyword::If | Keyword::While | Keyword::Do | Keyword::For => true,
        Keyword::Break | Keyword::Continue | Keyword::Return => true,
        _ => false,
    }
}

fn sign_opens(sign: Sign) -> bool
    ensures { result ≡ firsts.sign_opens sign }
{
    match sign {
        Sign::BraceOpen | Sign::Semicolon => true,
        _ => false,
    }
}

fn opens_stmt(next: Option<&TokenKind>) -> bool
    ensures { result ≡ firsts.opens_stmt (option_copied next.entry) }
{
    match next {
        Some(TokenKind::Keyword(keyword)) => keyword_opens(*keyword),
        Some(TokenKind::Sign(sign)) => sign_opens(*sign),
        _ => false,
    }
}

/// Whether a statement begins with the token.
pub(crate) fn begins_stmt(next: Option<&TokenKind>) -> bool
    ensures { result ≡ firsts.begins_stmt (option_copied next.entry) }
{
    opens_stmt(next) || begins(next)
}
