//! Calls answered by cells that threads share without a lock.
#![tactic(auto)]

mod answer;
mod between;
mod dispatch;
mod ends;
mod lent;
mod row;
mod shared;
mod states;
mod table;

pub use answer::{Answer, Ask};
pub use between::{Between, Held};
pub use lent::SharedCells;
pub use table::{CellTable, Pass};
