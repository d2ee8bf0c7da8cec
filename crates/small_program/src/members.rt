// The classes of a small program and their methods, by numbers.
ghost use Rattle.std.specs.Prelude.{◌≡◌, ◌≤◌, ◌<◌, ◌+◌, ◌++◌, ◌∷◌, [], length, map, OnOk};
ghost use Rattle.small_program.specs.Numbering.{chain_below, class_below, method_of, methods_from};

use crate::small::{SmallClass, SmallMethod};
use program::{Body, Class, ClassId, Expression, Literal, Method, MethodBody, SelectorKind};
use sqlite_items::Items;
use std::alloc::{AllocError, Global};

const OBJECT: u16 = 0;

/// The number of the first class behind the built-in ones.
const FIRST: u16 = 7;

fn add_class(alloc: Global, all: &mut Items<Class>, up: u16, name: &[u8]) -> Result<(), AllocError>
    ensures { OnOk result (all.new ≡ all.old ++ class_below up name.now ∷ []) }
{
    let name = Items::from_slice(alloc, name)?;
    all.push(Class {
        name,
        parent: Some(ClassId(up)),
        interfaces: Items::new(alloc),
        is_abstract: false,
        fields: Items::new(alloc),
        constructor: None,
    })
}

/// Adds the classes, each below the one before it.
pub fn add_classes(
    alloc: Global,
    all: &mut Items<Class>,
    chain: &[SmallClass],
) -> Result<(), AllocError>
    requires { length chain.now ≤ 2041 }
    ensures { OnOk result (all.new ≡ all.old ++ chain_below 0 7 chain.now) }
{
    let mut up = OBJECT;
    let mut number = FIRST;
    for class in chain {
        add_class(alloc, all, up, class.name.as_slice())?;
        up = number;
        number += 1;
    }
    Ok(())
}

fn add_method(
    alloc: Global,
    all: &mut Items<Method>,
    owner: u16,
    method: &SmallMethod,
) -> Result<(), AllocError>
    ensures { OnOk result (all.new ≡ all.old ++ method_of owner method.now ∷ []) }
{
    let name = Items::from_slice(alloc, method.name.as_slice())?;
    let value = Expression::Constant(Literal::Int(method.value));
    all.push(Method {
        owner: ClassId(owner),
        name,
        role: SelectorKind::Call,
        required: 0,
        defaults: Items::new(alloc),
        body: MethodBody::Code(Body::Arrow(value)),
    })
}

fn add_methods_of(
    alloc: Global,
    all: &mut Items<Method>,
    owner: u16,
    methods: &[SmallMethod],
) -> Result<(), AllocError>
    ensures { OnOk result (all.new ≡ all.old ++ map (method_of owner) methods.now) }
{
    for method in methods {
        add_method(alloc, all, owner, method)?;
    }
    Ok(())
}

/// Adds the methods of each class.
pub fn add_methods(
    alloc: Global,
    all: &mut Items<Method>,
    chain: &[SmallClass],
) -> Result<(), AllocError>
    requires { length chain.now ≤ 2041 }
    ensures { OnOk result (all.new ≡ all.old ++ methods_from 7 chain.now) }
{
    let mut owner = FIRST;
    for class in chain {
        add_methods_of(alloc, all, owner, class.methods.as_slice())?;
        owner += 1;
    }
    Ok(())
}
