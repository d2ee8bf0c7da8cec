//! The call sites of a tree by their numbers.

ghost use Rattle.std.specs.Prelude.{◌≡◌, ◌≤◌, length};
ghost use Rattle.dart_syntax.specs.View.{unit};
ghost use Rattle.dart_meaning.specs.Sites.{text_sites};
ghost use Rattle.dart_meaning.specs.NumberedForm.{in_order};
ghost use Rattle.site_list.specs.SourceSites.{listed};

use dart_syntax::token::Span;
use dart_syntax::tree::Tree;
use program::SiteId;
use site_list::{SourceSite, TextPlace, site_number};
use tree_lists::SiteNumbers;

/// The sites of a tree in the order of their places.
#[derive(Drop)]
pub struct OrderedSites<'a> {
    pub tree: &'a Tree,
    pub sites: &'a [SourceSite<'a>],
    ghost exact: { listed sites.now ≡ in_order (text_sites (unit tree.now)) },
    ghost few: { length sites.now ≤ 65536 },
}

impl<'a> OrderedSites<'a> {
    pub fn of(tree: &'a Tree, sites: &'a [SourceSite<'a>]) -> OrderedSites<'a>
        requires exact { listed sites.now ≡ in_order (text_sites (unit tree.now)) }
        requires few { length sites.now ≤ 65536 }
        ensures { result.tree ≡ tree.entry }
    {
        OrderedSites { tree, sites }
    }
}

impl<'a> SiteNumbers for OrderedSites<'a> {
    ghost tree = { λ s. unit s.tree.now };

    fn reading(&self, at: Span) -> SiteId {
        site_number(self.sites, TextPlace::Reading(at.start))
    }

    fn writing(&self, at: Span) -> SiteId {
        site_number(self.sites, TextPlace::Writing(at.start))
    }
}
