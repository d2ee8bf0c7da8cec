//! What the grammar keeps of the tree of every text.
#![tactic(auto)]

ghost use Rattle.std.specs.Prelude.{List, length, ◌≤◌};
ghost use Rattle.dart_syntax.specs.declared.token.Token.{Token};
ghost use Rattle.dart_syntax.specs.Bytes.{Text};
ghost use Rattle.dart_syntax.specs.Tokens.{TokenList};
ghost use Rattle.dart_syntax.specs.Syntax.{Tree};
ghost use Rattle.dart_syntax.specs.Derivation.{Derives};
ghost use Rattle.text_trees.specs.Written.{IsWritten, SitesWithin};

/// The tree that the tokens of a text derive is written. No source is longer.
pub fn tokens_of_texts_make_written_trees()
    ensures { (source : Text) (list : List Token) (tree : Tree) → TokenList source list → Derives list tree → length source ≤ 1048576 → IsWritten tree }
{}

/// Each of its call sites is at a byte of the text.
pub fn call_sites_of_texts_are_within()
    ensures { (source : Text) (list : List Token) (tree : Tree) → TokenList source list → Derives list tree → SitesWithin source tree }
{}
