// Literals.
use sqlite_items::Items;

/// UTF-16 code units, as strings hold them.
pub type Text = Items<u16>;

#[derive(Drop)]
pub enum Literal {
    Null,
    Bool(bool),
    Int(i64),
    Str(Text),
}
