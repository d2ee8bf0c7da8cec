//! Lists the call sites of a tree, and gives sites and selectors their numbers.
#![tactic(auto)]

mod counts;
mod cursor;
mod listing;
mod operators;
mod order;
mod rows;
mod selectors;
mod site;
mod tables;

pub use counts::{count_selectors, count_sites};
pub use listing::sites_of;
pub use order::{put_in_order, site_number};
pub use site::{SourceSelector, SourceSite, TextPlace};
pub use tables::{SiteTables, tables_of};
