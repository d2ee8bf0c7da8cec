//! The numbered program of an accepted tree is sound, and does what the tree does.
#![tactic(auto)]

ghost use Rattle.std.specs.Prelude.{◌≡◌, ℕ, slice_get, option_map};
ghost use Rattle.dart_syntax.specs.Bytes.{Text};
ghost use Rattle.dart_syntax.specs.Syntax.{Tree};
ghost use Rattle.program.specs.Parts.{Parts};
ghost use Rattle.program.specs.Whole.{IsSound};
ghost use Rattle.dart_meaning.specs.Agree.{Agree};
ghost use Rattle.dart_meaning.specs.Classes.{functions};
ghost use Rattle.dart_meaning.specs.Entry.{entry_meaning};
ghost use Rattle.dart_meaning.specs.Numbered.{entry_meaning_n};
ghost use Rattle.dart_meaning.specs.Sites.{site_of};
ghost use Rattle.static_rules.specs.Accepted.{IsAccepted};
ghost use Rattle.dart_meaning.specs.NumberedForm.{IsNumberedOf};
ghost use Rattle.text_trees.specs.Written.{IsWritten};

/// A program that holds the numbered form of an accepted tree is sound, where the tree keeps what the trees of texts keep.
pub fn numbered_programs_are_sound()
    ensures { (text : Text) (tree : Tree) (p : Parts) → IsNumberedOf text tree p → IsAccepted tree → IsWritten tree → IsSound p }
{}

/// It stands for the tree: it finds the same members, and has the same bodies, with slots and numbers for names.
#[tactic(auto, using(crate::proofs::Whole::program_agrees))]
pub fn numbered_programs_stand_for_their_trees()
    ensures { (text : Text) (tree : Tree) (p : Parts) → IsNumberedOf text tree p → IsAccepted tree → IsWritten tree → Agree tree (site_of tree) p }
{}

/// So each entry does the same, with every number of turns: the same lines, ending, calls and tests.
#[tactic(auto, using(crate::proofs::Whole::does_the_same))]
pub fn numbered_programs_do_the_same()
    ensures { (text : Text) (tree : Tree) (p : Parts) → IsNumberedOf text tree p → IsAccepted tree → IsWritten tree → (f turns : ℕ) → entry_meaning_n p f turns ≡ option_map (λ k. entry_meaning tree (site_of tree) k turns) (slice_get (functions tree) f) }
{}
