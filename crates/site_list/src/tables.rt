//! The tables of selectors and sites of a numbered program.

ghost use Rattle.std.specs.Prelude.{◌≡◌, ◌-◌, ◌^◌, ◌<◌, ◌≤◌, All, length, map, IfOk};
ghost use Rattle.dart_syntax.specs.Syntax as t;
ghost use Rattle.dart_meaning.specs.Sites.{text_sites};
ghost use Rattle.dart_meaning.specs.NumberedForm.{in_order, ordered_sites, numbered_selectors, numbered_site};
ghost use Rattle.site_list.specs.Rows.{AreLimited};
ghost use Rattle.site_list.specs.SourceSites.{selector_of, listed};

use crate::rows::{put_last_rows, rows_of_text};
use crate::site::{SourceSelector, SourceSite};
use indexmap::IndexSet;
use program::{Selector, Site};
use sqlite_items::Items;
use std::alloc::{AllocError, Global};

/// The selectors and the sites by their numbers.
#[derive(Drop)]
pub struct SiteTables {
    pub selectors: Items<Selector>,
    pub sites: Items<Site>,
}

fn selector_row(alloc: Global, selector: &SourceSelector) -> Result<Selector, AllocError>
    requires { selector.now.count < 2 ^ 32 }
    ensures { IfOk result (λ row. row ≡ selector_of selector.now) }
{
    Ok(Selector {
        kind: selector.kind,
        name: Items::from_slice(alloc, selector.name)?,
        count: selector.count as u32,
    })
}

fn selector_rows(alloc: Global, all: &[SourceSelector]) -> Result<Items<Selector>, AllocError>
    requires { All (λ selector. selector.count < 2 ^ 32) all.now }
    ensures { IfOk result (λ rows. rows ≡ map selector_of all.now) }
{
    let mut rows = Items::new(alloc);
    for selector in all {
        rows.push(selector_row(alloc, selector)?)?;
    }
    Ok(rows)
}

/// The tables for sites in their order, and for the text that they stand in.
pub fn tables_of(alloc: Global, text: &[u8], sites: &[SourceSite]) -> Result<SiteTables, AllocError>
    requires small { length text.now < 2 ^ 32 - 1 }
    requires limited { (tree : t.Tree) × AreLimited tree sites.now }
    ensures selectors { IfOk result (λ tables. (tree : t.Tree) → listed sites.now ≡ in_order (text_sites tree) → tables.selectors ≡ numbered_selectors tree) }
    ensures sites { IfOk result (λ tables. (tree : t.Tree) → listed sites.now ≡ in_order (text_sites tree) → tables.sites ≡ map (numbered_site text.now tree) (ordered_sites tree)) }
{
    let mut known = IndexSet::new(alloc);
    let mut rows = rows_of_text(alloc, &mut known, text, sites)?;
    put_last_rows(&mut known, &mut rows)?;
    Ok(SiteTables {
        selectors: selector_rows(alloc, known.as_slice())?,
        sites: Items::from_vec(rows),
    })
}
