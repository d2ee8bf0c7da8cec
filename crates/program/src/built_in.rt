// The program of the built-in classes and members, and nothing else.
ghost use Rattle.std.specs.Prelude.{◌≡◌, ◌≤◌, ◌++◌, ◌+◌, length, IfOk, OnOk, map};
ghost use Rattle.program.specs.BuiltIn.{built_in_class, built_in_classes, built_in, built_in_members, built_in_parts, to_string, to_string_at};
ghost use Rattle.program.specs.Rows.{members_from};
ghost use Rattle.program.specs.Program.{parts_of};

use crate::ids::{ClassId, NativeId, SelectorId};
use crate::numbered::{
    Class, Method, MethodBody, Numbered, Selector, SelectorKind, Site, SitePlace,
};
use sqlite_items::Items;
use std::alloc::{AllocError, Global};

const OBJECT: ClassId = ClassId(0);

const NULL: ClassId = ClassId(1);

const BOOL: ClassId = ClassId(2);

const INT: ClassId = ClassId(3);

const STRING: ClassId = ClassId(4);

const LIST: ClassId = ClassId(5);

const INVOCATION: ClassId = ClassId(6);

/// A built-in member: its class, its kind, its name, and how many parameters it has.
#[derive(Clone, Copy)]
struct Row {
    owner: ClassId,
    role: SelectorKind,
    name: &'static [u8],
    required: u32,
}

macro_rules! member_row {
    ($owner:expr, $role:ident, $name:expr, $required:expr) => {
        Row {
            owner: $owner,
            role: SelectorKind::$role,
            name: $name,
            required: $required,
        }
    };
}

const MEMBERS: [Row; 49] = [
    member_row!(OBJECT, Call, b"==", 1),
    member_row!(OBJECT, Call, b"toString", 0),
    member_row!(OBJECT, Call, b"noSuchMethod", 1),
    member_row!(NULL, Call, b"toString", 0),
    member_row!(BOOL, Call, b"&", 1),
    member_row!(BOOL, Call, b"|", 1),
    member_row!(BOOL, Call, b"^", 1),
    member_row!(BOOL, Call, b"toString", 0),
    member_row!(INT, Call, b"+", 1),
    member_row!(INT, Call, b"-", 1),
    member_row!(INT, Call, b"*", 1),
    member_row!(INT, Call, b"~/", 1),
    member_row!(INT, Call, b"%", 1),
    member_row!(INT, Call, b"&", 1),
    member_row!(INT, Call, b"|", 1),
    member_row!(INT, Call, b"^", 1),
    member_row!(INT, Call, b"<<", 1),
    member_row!(INT, Call, b">>", 1),
    member_row!(INT, Call, b">>>", 1),
    member_row!(INT, Call, b"<", 1),
    member_row!(INT, Call, b"<=", 1),
    member_row!(INT, Call, b">", 1),
    member_row!(INT, Call, b">=", 1),
    member_row!(INT, Call, b"==", 1),
    member_row!(INT, Call, b"unary-", 0),
    member_row!(INT, Call, b"~", 0),
    member_row!(INT, Call, b"toString", 0),
    member_row!(INT, Get, b"isEven", 0),
    member_row!(INT, Get, b"isOdd", 0),
    member_row!(STRING, Call, b"+", 1),
    member_row!(STRING, Call, b"==", 1),
    member_row!(STRING, Call, b"[]", 1),
    member_row!(STRING, Get, b"length", 0),
    member_row!(STRING, Get, b"isEmpty", 0),
    member_row!(STRING, Call, b"toString", 0),
    member_row!(STRING, Call, b"codeUnitAt", 1),
    member_row!(STRING, Call, b"substring", 2),
    member_row!(LIST, Call, b"[]", 1),
    member_row!(LIST, Call, b"[]=", 2),
    member_row!(LIST, Get, b"length", 0),
    member_row!(LIST, Get, b"isEmpty", 0),
    member_row!(LIST, Call, b"add", 1),
    member_row!(LIST, Call, b"removeLast", 0),
    member_row!(LIST, Call, b"toString", 0),
    member_row!(INVOCATION, Get, b"memberName", 0),
    member_row!(INVOCATION, Get, b"positionalArguments", 0),
    member_row!(INVOCATION, Get, b"isMethod", 0),
    member_row!(INVOCATION, Get, b"isGetter", 0),
    member_row!(INVOCATION, Get, b"isSetter", 0),
];

fn class(alloc: Global, name: &[u8], parent: Option<ClassId>) -> Result<Class, AllocError>
    ensures { IfOk result (λ k. k ≡ built_in_class name.now parent) }
{
    Ok(Class {
        name: Items::from_slice(alloc, name)?,
        parent,
        interfaces: Items::new(alloc),
        is_abstract: false,
        fields: Items::new(alloc),
        constructor: None,
    })
}

fn classes(alloc: Global) -> Result<Items<Class>, AllocError>
    ensures { IfOk result (λ all. all ≡ built_in_classes) }
{
    let mut all = Items::new(alloc);
    all.push(class(alloc, b"Object", None)?)?;
    all.push(class(alloc, b"Null", Some(OBJECT))?)?;
    all.push(class(alloc, b"bool", Some(OBJECT))?)?;
    all.push(class(alloc, b"int", Some(OBJECT))?)?;
    all.push(class(alloc, b"String", Some(OBJECT))?)?;
    all.push(class(alloc, b"List", Some(OBJECT))?)?;
    all.push(class(alloc, b"Invocation", Some(OBJECT))?)?;
    Ok(all)
}

fn member(alloc: Global, number: u16, row: Row) -> Result<Method, AllocError>
    ensures { IfOk result (λ m. m ≡ built_in number row.owner.0 row.role row.name.now row.required) }
{
    Ok(Method {
        owner: row.owner,
        name: Items::from_slice(alloc, row.name)?,
        role: row.role,
        required: row.required,
        defaults: Items::new(alloc),
        body: MethodBody::Native(NativeId(number)),
    })
}

fn members(alloc: Global, rows: &[Row]) -> Result<Items<Method>, AllocError>
    requires { length rows.now ≤ 65535 }
    ensures { IfOk result (λ all. all ≡ members_from 0 rows.now) }
{
    let mut all = Items::new(alloc);
    for (number, row) in rows.iter().enumerate() {
        all.push(member(alloc, number as u16, *row)?)?;
    }
    Ok(all)
}

fn built_in_methods(alloc: Global) -> Result<Items<Method>, AllocError>
    ensures { IfOk result (λ all. all ≡ built_in_members) }
{
    members(alloc, &MEMBERS)
}

/// A program of the built-in classes and members, which `print` and a list's text call by `toString`.
pub fn built_in_program(alloc: Global) -> Result<Numbered, AllocError>
    ensures { IfOk result (λ p. parts_of p ≡ built_in_parts) }
{
    let classes = classes(alloc)?;
    let methods = built_in_methods(alloc)?;
    let mut selectors = Items::new(alloc);
    selectors.push(Selector {
        kind: SelectorKind::Call,
        name: Items::from_slice(alloc, b"toString")?,
        count: 0,
    })?;
    let mut sites = Items::new(alloc);
    let selector = SelectorId(0);
    sites.push(Site {
        selector,
        place: SitePlace::Print,
    })?;
    sites.push(Site {
        selector,
        place: SitePlace::List,
    })?;
    Ok(Numbered {
        classes,
        methods,
        functions: Items::new(alloc),
        selectors,
        sites,
        globals: Items::new(alloc),
    })
}
