//! The canonical text of a tree reads back as the tree.

ghost use Rattle.std.specs.Prelude.{List};
ghost use Rattle.dart_syntax.specs.declared.token.Token.{Token};
ghost use Rattle.dart_syntax.specs.Bytes.{Text};
ghost use Rattle.dart_syntax.specs.Tokens.{TokenList};
ghost use Rattle.dart_syntax.specs.Syntax.{Tree};
ghost use Rattle.dart_syntax.specs.Derivation.{Derives};
ghost use Rattle.dart_syntax.specs.Text as text;
ghost use Rattle.dart_printer.specs.ReadsBack.{ArePossible, ReadsBack};

/// Of every tree that some list of possible tokens derives, the canonical text has a token list,
/// and that list derives the tree again, spans aside.
#[tactic(auto, using(crate::proofs::Whole::reads_back))]
pub fn canonical_text_reads_back()
    ensures { (list : List Token) (tree : Tree) → ArePossible list → Derives list tree → ReadsBack (text.text tree) tree }
{}

/// The tokens of a text are possible, so this holds of the tree of every text.
pub fn tokens_of_texts_are_possible()
    ensures { (source : Text) (list : List Token) → TokenList source list → ArePossible list }
{}
