//! Words.

ghost use Rattle.std.specs.Prelude.{◌≡◌, map};
ghost use Rattle.std.specs.List.{list_any};
ghost use Rattle.std.specs.Str.{bytes_eq};
ghost use Rattle.dart_syntax.specs.Names as spec;

use dart_syntax::{Keyword, keyword_table, reserved_words};

/// What the table has for the word.
fn lookup<A: Copy>(mut table: &[(&[u8], A)], word: &[u8]) -> Option<A>
    ensures { result ≡ spec.lookup (map (λ k. (k.0.now, k.1)) table.entry.now) word.now }
{
    while let [entry, rest @ ..] = table {
        if entry.0 == word {
            return Some(entry.1);
        }
        table = rest;
    }
    None
}

fn is_among(mut words: &[&[u8]], word: &[u8]) -> bool
    ensures { result ≡ list_any (λ r. bytes_eq r word.now) (map (λ w. w.now) words.entry.now) }
{
    while let [first, rest @ ..] = words {
        if *first == word {
            return true;
        }
        words = rest;
    }
    false
}

#[tactic(auto, unfolding(dart_syntax::specs::Names::keyword_of))]
pub fn keyword_of(word: &[u8]) -> Option<Keyword>
    ensures { result ≡ spec.keyword_of word.now }
{
    lookup(keyword_table(), word)
}

#[tactic(auto, unfolding(dart_syntax::specs::Names::is_reserved))]
pub fn is_reserved(word: &[u8]) -> bool
    ensures { result ≡ spec.is_reserved word.now }
{
    is_among(reserved_words(), word)
}
