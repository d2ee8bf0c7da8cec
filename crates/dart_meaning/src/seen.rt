//! What a scope knows of a name.

/// A name that a local or a parameter has.
#[derive(Clone, Copy, Debug, PartialEq, Eq)]
pub enum Seen {
    /// A local whose declaration has not ended yet.
    Late,
    /// One that is declared, and whether it is final.
    Ready(bool),
}
