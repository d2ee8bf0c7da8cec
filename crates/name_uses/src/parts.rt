//! The parts of a tree that use something.

ghost use Rattle.std.specs.Prelude.{◌≡◌, ◌++◌, ◌∷◌, [], OnOk, IfOk, Some, None, map, option_map, flat_map};
ghost use Rattle.std.specs.List.{list_any};
ghost use Rattle.dart_syntax.specs.Syntax as tree;
ghost use Rattle.dart_syntax.specs.View as view;
ghost use Rattle.dart_meaning.specs.Uses as u;
ghost use Rattle.name_uses.specs.Undo.{meaning};
ghost use Rattle.name_uses.specs.Found.{part_of, found};

use crate::exprs::{uses_of, uses_of_all};
use crate::list::{Use, Uses};
use crate::scope::Scope;
use crate::stmts::uses_of_block;
use dart_meaning::Seen;
use dart_syntax::tree::{Body, ClassDecl, Function, Member, Param, Passed, Stmt, Top, Tree};
use sqlite_items::Items;
use std::alloc::{AllocError, Global};
use std::slice;

/// What a part of a tree is. `this` stands for an object in the bodies of members alone.
#[derive(Clone, Copy, Debug, PartialEq, Eq)]
pub enum Kind {
    OfFunction,
    OfMember,
    /// What a constructor passes to its superclass.
    OfPassed,
    /// The body of a constructor.
    OfConstructor,
}

/// A part of a tree, the class that holds it, and what it uses.
#[derive(Drop)]
pub struct Part<'a> {
    pub kind: Kind,
    pub class: Option<&'a ClassDecl>,
    pub uses: Uses<'a>,
}

/// The parts that were found so far.
#[derive(Drop)]
pub struct Parts<'a> {
    list: Vec<Part<'a>>,
}

impl<'a> Parts<'a> {
    #[tactic(auto, unfolding(crate::specs::Found::found))]
    pub fn as_slice(&self) -> &[Part<'a>]
        ensures { map part_of result.now ≡ found self.now }
    {
        self.list.as_slice()
    }

    #[tactic(auto, unfolding(crate::specs::Found::found))]
    pub fn new(alloc: Global) -> Parts<'a>
        ensures { found result ≡ [] }
    {
        Parts {
            list: Vec::new(alloc),
        }
    }

    #[tactic(auto, unfolding(crate::specs::Found::found))]
    pub fn push(&mut self, one: Part<'a>) -> Result<(), AllocError>
        ensures { OnOk result (found self.new ≡ found self.old ++ part_of one.entry ∷ []) }
    {
        self.list.push(one)?;
        Ok(())
    }
}

fn set_param<'a>(scope: &mut Scope<'a, Seen>, x: &'a Param) -> Result<(), AllocError>
    ensures { OnOk result (meaning scope.new ≡ u.with_param (view.param x.now) (meaning scope.old)) }
{
    if x.is_field {
        return Ok(());
    }
    scope.set(x.name.text.as_slice(), Seen::Ready(x.is_final))
}

/// What names mean where a body begins.
fn in_body<'a>(alloc: Global, params: &'a [Param]) -> Result<Scope<'a, Seen>, AllocError>
    ensures { IfOk result (λ scope. meaning scope ≡ u.with_params (map view.param params.now) u.nothing_seen) }
{
    let mut scope = Scope::new(alloc);
    for x in params {
        set_param(&mut scope, x)?;
    }
    Ok(scope)
}

/// What names mean in what a constructor passes to its superclass.
fn in_passed<'a>(alloc: Global, params: &'a [Param]) -> Result<Scope<'a, Seen>, AllocError>
    ensures { IfOk result (λ scope. meaning scope ≡ u.with_passed (map view.param params.now) u.nothing_seen) }
{
    let mut scope = Scope::new(alloc);
    for x in params {
        let seen = Seen::Ready(x.is_field || x.is_final);
        scope.set(x.name.text.as_slice(), seen)?;
    }
    Ok(scope)
}

/// What a body uses.
fn put_body<'a>(
    alloc: Global,
    out: &mut Uses<'a>,
    params: &'a [Param],
    body: &'a Body,
) -> Result<(), AllocError>
    ensures { OnOk result (out.new ≡ out.old ++ u.body_uses (u.with_params (map view.param params.now) u.nothing_seen) (view.body body.now)) }
{
    let mut scope = in_body(alloc, params)?;
    match body {
        Body::Arrow(x) => {
            uses_of(out, &scope, x)?;
            Ok(())
        }
        Body::Block(all) => uses_of_block(out, &mut scope, false, all.as_slice()),
    }
}

/// The part of a function.
fn put_function<'a>(alloc: Global, out: &mut Parts<'a>, x: &'a Function) -> Result<(), AllocError>
    ensures { OnOk result (found out.new ≡ found out.old ++ u.top_parts (tree.a_function (view.function x.now))) }
{
    let mut uses = Uses::new(alloc);
    put_body(alloc, &mut uses, x.params.as_slice(), &x.body)?;
    out.push(Part {
        kind: Kind::OfFunction,
        class: None,
        uses,
    })
}

/// The part of a member that has a body.
fn put_member<'a>(
    alloc: Global,
    out: &mut Parts<'a>,
    class: &'a ClassDecl,
    params: &'a [Param],
    body: &'a Option<Body>,
) -> Result<(), AllocError>
    ensures { OnOk result (found out.new ≡ found out.old ++ u.member_part (view.class class.now) (map view.param params.now) (option_map view.body body.now)) }
{
    match body {
        None => Ok(()),
        Some(body) => {
            let mut uses = Uses::new(alloc);
            put_body(alloc, &mut uses, params, body)?;
            out.push(Part {
                kind: Kind::OfMember,
                class: Some(class),
                uses,
            })
        }
    }
}

/// What a constructor passes to its superclass.
fn put_passed<'a>(
    alloc: Global,
    out: &mut Uses<'a>,
    class: &'a ClassDecl,
    params: &'a [Param],
    passed: &'a Option<Passed>,
) -> Result<(), AllocError>
    ensures { OnOk result (out.new ≡ out.old ++ u.passed_uses (view.class class.now) (map view.param params.now) (option_map view.passed passed.now)) }
{
    match passed {
        None => out.push(Use::EntersSuper(class.name.span, 0)),
        Some(x) => {
            let scope = in_passed(alloc, params)?;
            out.push(Use::EntersSuper(x.span, x.args.len()))?;
            uses_of_all(out, &scope, x.args.as_slice())?;
            Ok(())
        }
    }
}

/// The fields that a constructor's parameters set.
fn put_fields<'a>(out: &mut Uses<'a>, params: &'a [Param]) -> Result<(), AllocError>
    ensures { OnOk result (out.new ≡ out.old ++ u.field_uses (map view.param params.now)) }
{
    for x in params {
        if x.is_field {
            out.push(Use::SetsField(&x.name))?;
        }
    }
    Ok(())
}

/// The body of a constructor.
fn put_block<'a>(
    alloc: Global,
    out: &mut Uses<'a>,
    params: &'a [Param],
    body: &'a Option<Items<Stmt>>,
) -> Result<(), AllocError>
    ensures { OnOk result (out.new ≡ out.old ++ u.some_block_uses (u.with_params (map view.param params.now) u.nothing_seen) (option_map view.all_stas body.now)) }
{
    match body {
        None => Ok(()),
        Some(all) => {
            let mut scope = in_body(alloc, params)?;
            uses_of_block(out, &mut scope, false, all.as_slice())
        }
    }
}

/// The two parts of a constructor.
fn put_constructor<'a>(
    alloc: Global,
    out: &mut Parts<'a>,
    class: &'a ClassDecl,
    params: &'a [Param],
    passed: &'a Option<Passed>,
    body: &'a Option<Items<Stmt>>,
) -> Result<(), AllocError>
    ensures { OnOk result (found out.new ≡ found out.old ++ u.constructor_parts (view.class class.now) (map view.param params.now) (option_map view.passed passed.now) (option_map view.all_stas body.now)) }
{
    let mut before = Uses::new(alloc);
    put_passed(alloc, &mut before, class, params, passed)?;
    let mut inside = Uses::new(alloc);
    put_fields(&mut inside, params)?;
    put_block(alloc, &mut inside, params, body)?;
    put_both(out, class, before, inside)
}

fn put_both<'a>(
    out: &mut Parts<'a>,
    class: &'a ClassDecl,
    before: Uses<'a>,
    inside: Uses<'a>,
) -> Result<(), AllocError>
    ensures { OnOk result (found out.new ≡ found out.old ++ u.part u.of_passed (Some (view.class class.now)) before.entry ∷ u.part u.of_constructor (Some (view.class class.now)) inside.entry ∷ []) }
{
    out.push(Part {
        kind: Kind::OfPassed,
        class: Some(class),
        uses: before,
    })?;
    out.push(Part {
        kind: Kind::OfConstructor,
        class: Some(class),
        uses: inside,
    })?;
    Ok(())
}

/// A class without a constructor has one without parameters.
fn put_plain_constructor<'a>(
    alloc: Global,
    out: &mut Parts<'a>,
    class: &'a ClassDecl,
) -> Result<(), AllocError>
    ensures { OnOk result (found out.new ≡ found out.old ++ u.constructor_parts (view.class class.now) [] None None) }
{
    let mut before = Uses::new(alloc);
    before.push(Use::EntersSuper(class.name.span, 0))?;
    put_both(out, class, before, Uses::new(alloc))
}

fn put_each<'a>(
    alloc: Global,
    out: &mut Parts<'a>,
    class: &'a ClassDecl,
    x: &'a Member,
) -> Result<(), AllocError>
    ensures { OnOk result (found out.new ≡ found out.old ++ u.member_parts (view.class class.now) (view.member x.now)) }
{
    match x {
        Member::Field(_) => Ok(()),
        Member::Method(_, params, body) => put_member(alloc, out, class, params.as_slice(), body),
        Member::Getter(_, body) => put_member(alloc, out, class, &[], body),
        Member::Setter(_, param, body) => {
            put_member(alloc, out, class, slice::from_ref(param), body)
        }
        Member::Operator(_, _, params, body) => {
            put_member(alloc, out, class, params.as_slice(), body)
        }
        Member::Constructor(_, params, passed, body) => {
            put_constructor(alloc, out, class, params.as_slice(), passed, body)
        }
    }
}

fn put_members<'a>(
    alloc: Global,
    out: &mut Parts<'a>,
    class: &'a ClassDecl,
    all: &'a [Member],
) -> Result<(), AllocError>
    ensures { OnOk result (found out.new ≡ found out.old ++ flat_map (u.member_parts (view.class class.now)) (map view.member all.now)) }
{
    for x in all {
        put_each(alloc, out, class, x)?;
    }
    Ok(())
}

fn is_constructor(x: &Member) -> bool
    ensures { result ≡ u.is_constructor (view.member x.now) }
{
    matches!(x, Member::Constructor(_, _, _, _))
}

fn has_constructor(all: &[Member]) -> bool
    ensures { result ≡ list_any u.is_constructor (map view.member all.now) }
{
    for x in all {
        if is_constructor(x) {
            return true;
        }
    }
    false
}

fn put_class<'a>(alloc: Global, out: &mut Parts<'a>, x: &'a ClassDecl) -> Result<(), AllocError>
    ensures { OnOk result (found out.new ≡ found out.old ++ u.class_parts (view.class x.now)) }
{
    if has_constructor(x.members.as_slice()) {
        put_members(alloc, out, x, x.members.as_slice())
    } else {
        put_plain_constructor(alloc, out, x)?;
        put_members(alloc, out, x, x.members.as_slice())
    }
}

fn put_top<'a>(alloc: Global, out: &mut Parts<'a>, x: &'a Top) -> Result<(), AllocError>
    ensures { OnOk result (found out.new ≡ found out.old ++ u.top_parts (view.top x.now)) }
{
    match x {
        Top::Class(x) => put_class(alloc, out, x),
        Top::Function(x) => put_function(alloc, out, x),
        Top::Variable(_) => Ok(()),
    }
}

/// The parts of a tree, in its order, each with what it uses.
pub fn parts_of<'a>(alloc: Global, tree: &'a Tree) -> Result<Parts<'a>, AllocError>
    ensures { IfOk result (λ parts. found parts ≡ u.parts (view.unit tree.now)) }
{
    let mut out = Parts::new(alloc);
    for x in tree.tops.as_slice() {
        put_top(alloc, &mut out, x)?;
    }
    Ok(out)
}
