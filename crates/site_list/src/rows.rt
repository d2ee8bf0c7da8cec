//! The rows of the table of sites.

ghost use Rattle.std.specs.Prelude.{◌≡◌, ◌-◌, ◌^◌, ◌<◌, ◌≤◌, [], ◌∷◌, ◌++◌, length, map, IfOk, OnOk};
ghost use Rattle.dart_meaning.specs.Program.{to_string};
ghost use Rattle.std.specs.List.{position_or_len};
ghost use Rattle.dart_values.specs.Values.{Text};
ghost use Rattle.dart_meaning.specs.Sites.{same_selector, also_used, prelude_sites};
ghost use Rattle.site_list.specs.Rows.{Stands, row_in};
ghost use Rattle.site_list.specs.SourceSites.{selector_of, site_of_source, listed, asked, held};

use crate::cursor::Cursor;
use crate::selectors::note;
use crate::site::{SourceSelector, SourceSite, calling};
use indexmap::IndexSet;
use program::{SelectorId, Site, SitePlace};
use std::alloc::{AllocError, Global};

/// A row, by the number of its selector.
fn row<'a>(
    known: &mut IndexSet<SourceSelector<'a>>,
    selector: SourceSelector<'a>,
    place: SitePlace,
) -> Result<Site, AllocError>
    requires { length (held known.old) ≤ 2048 }
    ensures known { OnOk result (held known.new ≡ also_used (held known.old) (selector_of selector.entry ∷ [])) }
    ensures number { IfOk result (λ row. row.selector.0 ≡ position_or_len (same_selector (selector_of selector.entry)) (held known.old)) }
    ensures place { IfOk result (λ row. row.place ≡ place) }
{
    let number = note(known, selector)?;
    Ok(Site {
        selector: SelectorId(number as u16),
        place,
    })
}

/// The row of a site of the text.
fn row_of<'a>(
    known: &mut IndexSet<SourceSelector<'a>>,
    cursor: &mut Cursor,
    text: &[u8],
    site: SourceSite<'a>,
) -> Result<Site, AllocError>
    requires small { length text.now < 2 ^ 32 - 1 }
    requires stands { Stands text.now cursor.old }
    requires few { length (held known.old) ≤ 2048 }
    ensures known { OnOk result (held known.new ≡ also_used (held known.old) (selector_of site.entry.selector ∷ [])) }
    ensures stands { Stands text.now cursor.new }
    ensures row { IfOk result (λ row. row ≡ row_in text.now (held known.old) (site_of_source site.entry)) }
{
    let place = cursor.place_at(text, site.place.byte());
    row(known, site.selector, place)
}

/// The rows of the sites of the text, where the selectors of these are few.
pub fn rows_of_text<'a>(
    alloc: Global,
    known: &mut IndexSet<SourceSelector<'a>>,
    text: &[u8],
    sites: &[SourceSite<'a>],
) -> Result<Vec<Site>, AllocError>
    requires small { length text.now < 2 ^ 32 - 1 }
    requires few { length (also_used (held known.old) (asked sites.now)) ≤ 2048 }
    ensures known { OnOk result (held known.new ≡ also_used (held known.old) (asked sites.now)) }
    ensures rows { IfOk result (λ rows. rows.items ≡ map (row_in text.now (also_used (held known.old) (asked sites.now))) (listed sites.now)) }
{
    let mut cursor = Cursor::new();
    let mut rows = Vec::new(alloc);
    for site in sites {
        rows.push(row_of(known, &mut cursor, text, *site)?)?;
    }
    Ok(rows)
}

/// Adds the rows of `print` and of a list's text.
pub fn put_last_rows<'a>(
    known: &mut IndexSet<SourceSelector<'a>>,
    rows: &mut Vec<Site>,
) -> Result<(), AllocError>
    requires { length (also_used (held known.old) (to_string ∷ [])) ≤ 2048 }
    ensures known { OnOk result (held known.new ≡ also_used (held known.old) (to_string ∷ to_string ∷ [])) }
    ensures rows { OnOk result ((text : Text) → rows.new.items ≡ rows.old.items ++ map (row_in text (also_used (held known.old) (to_string ∷ to_string ∷ []))) prelude_sites) }
{
    let to_string = calling(b"toString", 0);
    rows.push(row(known, to_string, SitePlace::Print)?)?;
    rows.push(row(known, to_string, SitePlace::List)?)?;
    Ok(())
}
