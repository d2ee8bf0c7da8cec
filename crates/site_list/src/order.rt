//! Sites by their places.

ghost use Rattle.std.specs.Prelude.{◌≡◌, ◌+◌, ◌≤◌, length, OnOk};
ghost use Rattle.dart_syntax.specs.Syntax as t;
ghost use Rattle.dart_meaning.specs.Sites.{key, text_sites, site_of};
ghost use Rattle.dart_meaning.specs.NumberedForm.{in_order};
ghost use Rattle.site_list.specs.SourceSites.{place_of, listed};

use crate::site::{SourceSite, TextPlace};
use program::SiteId;
use std::alloc::AllocError;

/// A place as a number: at one byte the read stands before the write.
fn key_of(place: TextPlace) -> u64
    ensures { result ≡ key (place_of place) }
{
    match place {
        TextPlace::Reading(byte) => 2 * u64::from(byte),
        TextPlace::Writing(byte) => 2 * u64::from(byte) + 1,
    }
}

/// Puts sites in the order of their places.
pub fn put_in_order(sites: &mut Vec<SourceSite>) -> Result<(), AllocError>
    ensures { OnOk result (listed sites.new.items ≡ in_order (listed sites.old.items)) }
{
    sites.sort_by_key(|site| key_of(site.place))?;
    Ok(())
}

/// The number of the site at a place: how many sites of the text stand before it.
pub fn site_number(sites: &[SourceSite], place: TextPlace) -> SiteId
    requires { length sites.now ≤ 65536 }
    ensures { (tree : t.Tree) → listed sites.now ≡ in_order (text_sites tree) → result.0 ≡ site_of tree (place_of place) }
{
    let key = key_of(place);
    let before = sites.partition_point(|site| key_of(site.place) < key);
    SiteId(before as u32)
}
