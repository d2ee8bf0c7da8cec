//! Counts and their limits.

ghost use Rattle.std.specs.Prelude.{◌≡◌, nat_lt, if◌then◌else◌, Some};
ghost use Rattle.static_rules.specs.Accepted.{most, exceeded};
ghost use Rattle.resolver.specs.Counted.{counts_of};

use static_rules::Limit;

/// What is counted of a tree, what is built in counted.
#[derive(Clone, Copy, Debug, PartialEq, Eq)]
pub struct Counts {
    pub classes: u64,
    pub methods: u64,
    pub functions: u64,
    pub selectors: u64,
    pub sites: u64,
}

fn most(what: Limit) -> u64
    ensures { result ≡ most what }
{
    match what {
        Limit::Classes | Limit::Selectors => 2_048,
        Limit::Methods | Limit::Functions => 32_767,
        Limit::Sites => 65_536,
    }
}

/// A count, where it is over its limit; else one of those behind it.
fn first_over(what: Limit, count: u64, behind: Option<(Limit, u64)>) -> Option<(Limit, u64)>
    ensures { result ≡ (if nat_lt (most what) count then Some (what, count) else behind) }
{
    if count > most(what) {
        Some((what, count))
    } else {
        behind
    }
}

/// The first count that is over its limit.
pub fn exceeded(counts: &Counts) -> Option<(Limit, u64)>
    ensures { result ≡ exceeded (counts_of counts.now) }
{
    let sites = first_over(Limit::Sites, counts.sites, None);
    let selectors = first_over(Limit::Selectors, counts.selectors, sites);
    let functions = first_over(Limit::Functions, counts.functions, selectors);
    let methods = first_over(Limit::Methods, counts.methods, functions);
    first_over(Limit::Classes, counts.classes, methods)
}
