//! How many sites and selectors a tree has.

ghost use Rattle.std.specs.Prelude.{◌≡◌, length, IfOk};
ghost use Rattle.dart_syntax.specs.Syntax as t;
ghost use Rattle.dart_meaning.specs.Sites.{text_sites, sites, selectors};
ghost use Rattle.site_list.specs.SourceSites.{listed};

use crate::selectors::{note, note_all};
use crate::site::{SourceSite, calling};
use indexmap::IndexSet;
use std::alloc::{AllocError, Global};

/// How many sites a tree has, with those of `print` and of a list's text.
pub fn count_sites(all: &[SourceSite]) -> usize
    ensures { (tree : t.Tree) → listed all.now ≡ text_sites tree → result ≡ length (sites tree) }
{
    all.len() + 2
}

/// How many selectors they call.
pub fn count_selectors(alloc: Global, all: &[SourceSite]) -> Result<usize, AllocError>
    ensures { IfOk result (λ n. (tree : t.Tree) → listed all.now ≡ text_sites tree → n ≡ length (selectors tree)) }
{
    let mut known = IndexSet::new(alloc);
    note_all(&mut known, all)?;
    note(&mut known, calling(b"toString", 0))?;
    Ok(known.len())
}
