//! Selectors, each once.

ghost use Rattle.std.specs.Prelude.{◌≡◌, [], ◌∷◌, IfOk, OnOk};
ghost use Rattle.std.specs.List.{position_or_len};
ghost use Rattle.dart_meaning.specs.Sites.{same_selector, also_used};
ghost use Rattle.site_list.specs.SourceSites.{selector_of, held, asked};

use crate::site::{SourceSelector, SourceSite};
use indexmap::IndexSet;
use std::alloc::AllocError;

/// Takes a selector, and answers its number: how many stand before it.
pub fn note<'a>(
    known: &mut IndexSet<SourceSelector<'a>>,
    selector: SourceSelector<'a>,
) -> Result<usize, AllocError>
    ensures known { OnOk result (held known.new ≡ also_used (held known.old) (selector_of selector.entry ∷ [])) }
    ensures number { IfOk result (λ n. n ≡ position_or_len (same_selector (selector_of selector.entry)) (held known.old)) }
{
    let (number, _) = known.insert_full(selector)?;
    Ok(number)
}

/// Takes the selectors of sites, in their order.
pub fn note_all<'a>(
    known: &mut IndexSet<SourceSelector<'a>>,
    sites: &[SourceSite<'a>],
) -> Result<(), AllocError>
    ensures { OnOk result (held known.new ≡ also_used (held known.old) (asked sites.now)) }
{
    for site in sites {
        note(known, site.selector)?;
    }
    Ok(())
}
