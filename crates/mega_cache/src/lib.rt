//! Megamorphic tables that threads share: for each selector of a program, its classes with their targets.
//!
//! - A *region* belongs to a selector: its root, and then the places of all generations.
//! - A *generation* has 16 places, and each next one twice as many; the last one has a place for each class.
//! - The *root* is the generation that is in use. It only rises.
//! - A *place* is empty or holds a class with its target. It is set once.
//! - The *window* of a class in a generation: the eight places from its home, 7 times its number.
//! - A *pass* is one thread's leave to use a table. Contracts know what it has seen there.
#![tactic(auto)]

mod entry;
mod find;
mod generations;
mod insert;
mod kinds;
mod steps;
mod surface;
mod table;
mod view;

pub use table::{MegaPass, MegaTable};
pub use view::{Found, MegaView, Sight};
