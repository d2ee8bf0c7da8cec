//! The tables of signs, keywords and reserved words.

ghost use Rattle.std.specs.Prelude.{◌≡◌, map};
ghost use Rattle.dart_syntax.specs.Names as names;
ghost use Rattle.dart_syntax.specs.Signs as language;

use crate::token::{Keyword, Sign};

const SIGNS: [(&[u8], Sign); 46] = [
    (b">>>=", Sign::ShiftUnsignedAssign),
    (b">>>", Sign::ShiftUnsigned),
    (b"<<=", Sign::ShiftLeftAssign),
    (b">>=", Sign::ShiftRightAssign),
    (b"~/=", Sign::DivideAssign),
    (b"=>", Sign::Arrow),
    (b"==", Sign::Equal),
    (b"!=", Sign::NotEqual),
    (b"<=", Sign::LessEqual),
    (b">=", Sign::GreaterEqual),
    (b"<<", Sign::ShiftLeft),
    (b">>", Sign::ShiftRight),
    (b"~/", Sign::Divide),
    (b"&&", Sign::And),
    (b"||", Sign::Or),
    (b"++", Sign::Increment),
    (b"--", Sign::Decrement),
    (b"+=", Sign::PlusAssign),
    (b"-=", Sign::MinusAssign),
    (b"*=", Sign::StarAssign),
    (b"%=", Sign::PercentAssign),
    (b"&=", Sign::AmpersandAssign),
    (b"|=", Sign::BarAssign),
    (b"^=", Sign::CaretAssign),
    (b"(", Sign::ParenOpen),
    (b")", Sign::ParenClose),
    (b"[", Sign::BracketOpen),
    (b"]", Sign::BracketClose),
    (b",", Sign::Comma),
    (b";", Sign::Semicolon),
    (b":", Sign::Colon),
    (b".", Sign::Dot),
    (b"?", Sign::Question),
    (b"@", Sign::At),
    (b"=", Sign::Assign),
    (b"!", Sign::Not),
    (b"<", Sign::Less),
    (b">", Sign::Greater),
    (b"+", Sign::Plus),
    (b"-", Sign::Minus),
    (b"*", Sign::Star),
    (b"%", Sign::Percent),
    (b"&", Sign::Ampersand),
    (b"|", Sign::Bar),
    (b"^", Sign::Caret),
    (b"~", Sign::Tilde),
];

const KEYWORDS: [(&[u8], Keyword); 26] = [
    (b"abstract", Keyword::Abstract),
    (b"break", Keyword::Break),
    (b"class", Keyword::Class),
    (b"continue", Keyword::Continue),
    (b"do", Keyword::Do),
    (b"dynamic", Keyword::Dynamic),
    (b"else", Keyword::Else),
    (b"extends", Keyword::Extends),
    (b"false", Keyword::False),
    (b"final", Keyword::Final),
    (b"for", Keyword::For),
    (b"get", Keyword::Get),
    (b"if", Keyword::If),
    (b"implements", Keyword::Implements),
    (b"is", Keyword::Is),
    (b"null", Keyword::Null),
    (b"operator", Keyword::Operator),
    (b"return", Keyword::Return),
    (b"set", Keyword::Set),
    (b"super", Keyword::Super),
    (b"this", Keyword::This),
    (b"throw", Keyword::Throw),
    (b"true", Keyword::True),
    (b"var", Keyword::Var),
    (b"void", Keyword::Void),
    (b"while", Keyword::While),
];

const RESERVED: [&[u8]; 13] = [
    b"assert", b"case", b"catch", b"const", b"default", b"enum", b"finally", b"in", b"new",
    b"rethrow", b"switch", b"try", b"with",
];

/// The signs with their texts, the longest first. Braces are not among them, since they may close an interpolation.
#[tactic(auto, unfolding(crate::specs::Signs::signs))]
pub fn sign_table() -> &'static [(&'static [u8], Sign)]
    ensures { map (λ k. (k.0.now, k.1)) result.now ≡ language.signs }
{
    &SIGNS
}

/// The keywords with their texts.
pub fn keyword_table() -> &'static [(&'static [u8], Keyword)]
    ensures { map (λ k. (k.0.now, k.1)) result.now ≡ names.keywords }
{
    &KEYWORDS
}

/// Words of Dart that no program of the profile has.
pub fn reserved_words() -> &'static [&'static [u8]]
    ensures { map (λ w. w.now) result.now ≡ names.reserved_words }
{
    &RESERVED
}
