// Numbered programs.
ghost use Rattle.program.specs.Whole.{IsSound};
ghost use Rattle.program.specs.Parts.{parts};

use crate::body::{Body, Expression, Statement};
use crate::ids::{ClassId, EntryId, MethodId, NativeId, SelectorId};
use crate::literal::Literal;
use sqlite_items::Items;

#[derive(Clone, Copy, Debug, PartialEq, Eq, Hash)]
pub enum SelectorKind {
    Call,
    Get,
    Set,
}

/// Where a call goes: the member found, or the receiver's `noSuchMethod`.
#[derive(Clone, Copy, Debug, PartialEq, Eq)]
pub enum Target {
    Method(MethodId),
    Nsm(MethodId),
}

#[derive(Drop)]
pub struct Field {
    pub name: Items<u8>,
    pub value: Literal,
}

/// A written constructor. Its parameters are the required ones, then one for each default.
#[derive(Drop)]
pub struct Constructor {
    pub required: u32,
    pub defaults: Items<Literal>,
    /// For each parameter the field that it sets, if it is a `this.x`.
    pub sets: Items<Option<u32>>,
    /// The arguments of the superclass's constructor.
    pub passes: Items<Expression>,
    pub body: Items<Statement>,
}

#[derive(Drop)]
pub struct Class {
    pub name: Items<u8>,
    pub parent: Option<ClassId>,
    pub interfaces: Items<ClassId>,
    pub is_abstract: bool,
    /// The fields that it declares. In an object they stand behind those of the classes above.
    pub fields: Items<Field>,
    pub constructor: Option<Constructor>,
}

/// What a member does. A field goes by its place in the object.
#[derive(Drop)]
pub enum MethodBody {
    Native(NativeId),
    ReadField(u32),
    WriteField(u32),
    Code(Body),
}

/// A member with a body. Its parameters are the required ones, then one for each default.
#[derive(Drop)]
pub struct Method {
    pub owner: ClassId,
    pub name: Items<u8>,
    pub role: SelectorKind,
    pub required: u32,
    pub defaults: Items<Literal>,
    pub body: MethodBody,
}

/// A top-level function. `is_entry` says that it is marked as an entry point.
#[derive(Drop)]
pub struct Function {
    pub name: Items<u8>,
    pub is_entry: bool,
    pub required: u32,
    pub defaults: Items<Literal>,
    pub body: Body,
}

#[derive(Drop)]
pub struct Selector {
    pub kind: SelectorKind,
    pub name: Items<u8>,
    pub count: u32,
}

/// Where a site stands: in the source, or in what `print` and a list's text do.
#[derive(Clone, Copy, Debug, PartialEq, Eq)]
pub enum SitePlace {
    At { line: u32, column: u32 },
    Print,
    List,
}

#[derive(Clone, Copy, Debug, PartialEq, Eq)]
pub struct Site {
    pub selector: SelectorId,
    pub place: SitePlace,
}

/// A program by numbers. `sound` is all that is true of each one.
#[derive(Drop)]
pub struct Numbered {
    pub classes: Items<Class>,
    pub methods: Items<Method>,
    pub functions: Items<Function>,
    pub selectors: Items<Selector>,
    pub sites: Items<Site>,
    pub globals: Items<Literal>,
    pub ghost sound: { ∥ IsSound (parts classes methods functions selectors sites globals) ∥₁ },
}

impl Function {
    ghost use Rattle.std.specs.Prelude.{◌≡◌};
    ghost use Rattle.program.specs.Program.{is_entry_point};

    /// Whether it has no parameters, and is named `main` or marked.
    pub fn is_entry_point(&self) -> bool
        ensures { result ≡ is_entry_point self.now }
    {
        self.required == 0
            && self.defaults.is_empty()
            && (self.is_entry || self.name.as_slice() == b"main".as_slice())
    }
}

impl Numbered {
    ghost use Rattle.std.specs.Prelude.{◌≡◌, false, All, IfSome, IfNone, option_map, position};
    ghost use Rattle.program.specs.Program.{entry_named, is_entry_named, HasEntry};

    /// The entry point of this name. No two functions have one name, so there is at most one.
    pub fn entry_of(&self, name: &str) -> Option<EntryId>
        ensures entry { option_map (λ e. e.0) result ≡ entry_named self.now name.now }
        ensures found { IfSome result (λ e. HasEntry self.now e.0 name.now) }
        ensures none { IfNone result (All (λ f. is_entry_named name.now f ≡ false) self.now.functions) }
    {
        let at = self.place_of(name.as_bytes())?;
        Some(EntryId(at as u32))
    }

    fn place_of(&self, name: &[u8]) -> Option<usize>
        ensures { result ≡ position (is_entry_named name.now) self.now.functions }
    {
        self.functions
            .as_slice()
            .iter()
            .position(|f| f.is_entry_point() && f.name.as_slice() == name)
    }
}
