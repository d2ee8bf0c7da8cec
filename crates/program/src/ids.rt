// Numbers of the parts of a program.

/// A class, by its place in the preorder of the hierarchy. Object is 0.
#[derive(Clone, Copy, Debug, PartialEq, Eq)]
pub struct ClassId(pub u16);

#[derive(Clone, Copy, Debug, PartialEq, Eq)]
pub struct MethodId(pub u16);

#[derive(Clone, Copy, Debug, PartialEq, Eq)]
pub struct SelectorId(pub u16);

#[derive(Clone, Copy, Debug, PartialEq, Eq)]
pub struct SiteId(pub u32);

/// A function, as a place to begin a run.
#[derive(Clone, Copy, Debug, PartialEq, Eq)]
pub struct EntryId(pub u32);

/// A built-in member, by the number of its method.
#[derive(Clone, Copy, Debug, PartialEq, Eq)]
pub struct NativeId(pub u16);

/// A unit of code.
#[derive(Clone, Copy, Debug, PartialEq, Eq)]
pub struct UnitId(pub u32);
