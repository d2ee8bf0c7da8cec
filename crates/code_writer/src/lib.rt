//! Code that is written from its end: the instructions of single forms, with the constants that they push.
#![tactic(auto)]

mod emitter;
mod finish;
mod key;
pub mod laws;
mod layout;
mod places;

pub use emitter::Emitter;
pub use finish::{depths_of, literals};
pub use key::{Key, key_of};
pub use layout::Layout;
pub use places::{
    Destination, assigned, constructor, put_joint, put_keep, put_make, put_operator, put_read,
    put_set, put_step, put_test, sum, written,
};
