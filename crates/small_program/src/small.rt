// Small programs.
use sqlite_items::Items;

/// `name() => value;`
#[derive(Drop)]
pub struct SmallMethod {
    pub name: Items<u8>,
    pub value: i64,
}

/// A class below the one before it, or below Object where it is the first.
#[derive(Drop)]
pub struct SmallClass {
    pub name: Items<u8>,
    pub methods: Items<SmallMethod>,
}

/// `print(C().method());`, with the place of the method's name. The class goes by its place in the chain.
#[derive(Drop)]
pub struct SmallPrint {
    pub class: u16,
    pub method: Items<u8>,
    pub line: u32,
    pub column: u32,
}

/// A chain of classes, and the statements of `main`.
#[derive(Drop)]
pub struct Small {
    pub classes: Items<SmallClass>,
    pub prints: Items<SmallPrint>,
}
