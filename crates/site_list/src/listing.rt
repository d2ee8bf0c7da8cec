//! The sites of a tree, as they are met.

ghost use Rattle.std.specs.Prelude.{◌≡◌, ◌++◌, map, flat_map, OnOk, IfOk};
ghost use Rattle.dart_meaning.specs.Uses as u;
ghost use Rattle.dart_meaning.specs.Means.{is_of_this};
ghost use Rattle.dart_meaning.specs.Sites.{if_of_this, sites_of_use, text_sites};
ghost use Rattle.name_uses.specs.Found.{found, part_of};
ghost use Rattle.name_uses.specs.Looked.{looked};
ghost use Rattle.name_uses.specs.Meant.{means_of};
ghost use Rattle.name_uses.specs.Using.{used};
ghost use Rattle.site_list.specs.SourceSites.{site_of_source, listed, if_listed};

use crate::operators::{binary_name, prefix_name};
use crate::site::{SourceSite, calling, getting, read_at, setting, write_at};
use name_uses::{Means, Names, Part, Parts, Use, meaning_of};
use std::alloc::{AllocError, Global};

/// The site, where the name of it means a member of `this`.
fn if_of_this<'a>(meant: Means, site: SourceSite<'a>) -> Option<SourceSite<'a>>
    ensures { if_listed result ≡ if_of_this (is_of_this (means_of meant)) (site_of_source site.entry) }
{
    match meant {
        Means::AMember | Means::OfThis => Some(site),
        Means::TooEarly | Means::ALocal(_) | Means::ATop | Means::Nothing => None,
    }
}

/// The site of a use, if it is called through a cell.
fn site_of_use<'a, N: Names>(names: &N, part: &Part<'a>, one: &Use<'a>) -> Option<SourceSite<'a>>
    ensures { if_listed result ≡ sites_of_use (N.tree names.now) (looked (N.tree names.now) (part_of part.now)) (used one.now) }
{
    match *one {
        Use::Reads(n, seen) => {
            let meant = meaning_of(names, part, n, seen);
            if_of_this(meant, read_at(n.span, getting(n.text.as_slice())))
        }
        Use::Writes(n, seen) => {
            let meant = meaning_of(names, part, n, seen);
            if_of_this(meant, write_at(n.span, setting(n.text.as_slice())))
        }
        Use::Calls(n, seen, count) => {
            let meant = meaning_of(names, part, n, seen);
            if_of_this(meant, read_at(n.span, calling(n.text.as_slice(), count)))
        }
        Use::MemberReads(n) => Some(read_at(n.span, getting(n.text.as_slice()))),
        Use::MemberWrites(n) => Some(write_at(n.span, setting(n.text.as_slice()))),
        Use::MemberCalls(n, count) => Some(read_at(n.span, calling(n.text.as_slice(), count))),
        Use::IndexReads(at) => Some(read_at(at, calling(b"[]", 1))),
        Use::IndexWrites(at) => Some(write_at(at, calling(b"[]=", 2))),
        Use::Operates(op, at) => Some(read_at(at, calling(binary_name(op), 1))),
        Use::Prefixes(op, at) => Some(read_at(at, calling(prefix_name(op), 0))),
        Use::Shows(at) => Some(read_at(at, calling(b"toString", 0))),
        Use::This(_)
        | Use::SuperReads(_, _)
        | Use::SuperWrites(_, _)
        | Use::SuperCalls(_, _, _)
        | Use::NamesClass(_)
        | Use::Declares(_, _)
        | Use::LeavesLoop(_, _)
        | Use::ReturnsValue(_)
        | Use::SetsField(_)
        | Use::EntersSuper(_, _) => None,
    }
}

/// Adds a site, if there is one.
fn put_site<'a>(
    out: &mut Vec<SourceSite<'a>>,
    site: Option<SourceSite<'a>>,
) -> Result<(), AllocError>
    ensures { OnOk result (listed out.new.items ≡ listed out.old.items ++ if_listed site.entry) }
{
    if let Some(site) = site {
        out.push(site)?;
    }
    Ok(())
}

fn put_sites_of_part<'a, N: Names>(
    names: &N,
    out: &mut Vec<SourceSite<'a>>,
    part: &Part<'a>,
) -> Result<(), AllocError>
    ensures { OnOk result (listed out.new.items ≡ listed out.old.items ++ flat_map (sites_of_use (N.tree names.now) (looked (N.tree names.now) (part_of part.now))) part.now.uses) }
{
    let all = part.uses.as_slice();
    for one in all {
        put_site(out, site_of_use(names, part, one))?;
    }
    Ok(())
}

fn sites_of_parts<'a, N: Names>(
    alloc: Global,
    names: &N,
    parts: &[Part<'a>],
) -> Result<Vec<SourceSite<'a>>, AllocError>
    ensures { IfOk result (λ all. listed all.items ≡ flat_map (λ part. flat_map (sites_of_use (N.tree names.now) part) part.uses) (map (looked (N.tree names.now)) (map part_of parts.now))) }
{
    let mut out = Vec::new(alloc);
    for part in parts {
        put_sites_of_part(names, &mut out, part)?;
    }
    Ok(out)
}

/// The sites of a tree, as they are met.
#[tactic(auto, unfolding(dart_meaning::specs::Sites::text_sites))]
pub fn sites_of<'a, N: Names>(
    alloc: Global,
    names: &N,
    parts: &Parts<'a>,
) -> Result<Vec<SourceSite<'a>>, AllocError>
    ensures { IfOk result (λ all. map (looked (N.tree names.now)) (found parts.now) ≡ u.parts (N.tree names.now) → listed all.items ≡ text_sites (N.tree names.now)) }
{
    sites_of_parts(alloc, names, parts.as_slice())
}
