//! The text of declarations.

ghost use Rattle.std.specs.Prelude.{◌≡◌, ◌++◌, OnOk, IfOk, List, [], map, option_map, flat_map, if◌then◌else◌, codes};
ghost use Rattle.dart_syntax.specs.declared.token.Token.{Token};
ghost use Rattle.dart_syntax.specs.Derivation.{same_text, Derives};
ghost use Rattle.dart_syntax.specs.View as view;
ghost use Rattle.dart_syntax.specs.Text as text;
ghost use Rattle.dart_printer.specs.ReadsBack.{ArePossible, ReadsBack};

use crate::expr::{print_expr, print_exprs};
use crate::read_back::canonical_text_reads_back;
use crate::stmt::{print_block, print_local};
use crate::words::{put, put_operator};
use dart_syntax::same::same_text;
use dart_syntax::tree::{Body, ClassDecl, Function, Member, Name, Param, Passed, Stmt, Top, Tree};
use ds_base::NoMemory;
use sqlite_items::Items;
use std::alloc::{AllocError, Global};

fn print_names(out: &mut Vec<u8>, all: &[Name]) -> Result<(), AllocError>
    ensures { OnOk result (out.new.items ≡ out.old.items ++ text.listed text.name_text all.now) }
{
    for (i, x) in all.iter().enumerate() {
        if i > 0 {
            put(out, b",")?;
        }
        put(out, x.text.as_slice())?;
    }
    Ok(())
}

fn print_param(out: &mut Vec<u8>, x: &Param) -> Result<(), AllocError>
    ensures { OnOk result (out.new.items ≡ out.old.items ++ text.param_text (view.param x.now)) }
{
    if x.is_final {
        put(out, b"final")?;
    }
    if x.is_field {
        put(out, b"this")?;
        put(out, b".")?;
    }
    put(out, x.name.text.as_slice())
}

fn print_param_list(out: &mut Vec<u8>, all: &[Param]) -> Result<(), AllocError>
    ensures { OnOk result (out.new.items ≡ out.old.items ++ text.listed text.param_text (map view.param all.now)) }
{
    for (i, x) in all.iter().enumerate() {
        if i > 0 {
            put(out, b",")?;
        }
        print_param(out, x)?;
    }
    Ok(())
}

/// Parameters in parentheses.
fn print_params(out: &mut Vec<u8>, all: &[Param]) -> Result<(), AllocError>
    ensures { OnOk result (out.new.items ≡ out.old.items ++ text.params_text (map view.param all.now)) }
{
    put(out, b"(")?;
    print_param_list(out, all)?;
    put(out, b")")
}

fn print_body(alloc: Global, out: &mut Vec<u8>, x: &Body) -> Result<(), AllocError>
    ensures { OnOk result (out.new.items ≡ out.old.items ++ text.body_text (view.body x.now)) }
{
    match x {
        Body::Arrow(x) => {
            put(out, b"=>")?;
            print_expr(alloc, out, x)?;
            put(out, b";")
        }
        Body::Block(all) => print_block(alloc, out, all.as_slice()),
    }
}

fn print_some_body(alloc: Global, out: &mut Vec<u8>, x: &Option<Body>) -> Result<(), AllocError>
    ensures { OnOk result (out.new.items ≡ out.old.items ++ text.some_body_text (option_map view.body x.now)) }
{
    match x {
        None => put(out, b";"),
        Some(x) => print_body(alloc, out, x),
    }
}

fn print_some_block(
    alloc: Global,
    out: &mut Vec<u8>,
    x: &Option<Items<Stmt>>,
) -> Result<(), AllocError>
    ensures { OnOk result (out.new.items ≡ out.old.items ++ text.some_block_text (option_map view.all_stas x.now)) }
{
    match x {
        None => put(out, b";"),
        Some(all) => print_block(alloc, out, all.as_slice()),
    }
}

/// What a constructor passes to its superclass.
fn print_passed(alloc: Global, out: &mut Vec<u8>, x: &Option<Passed>) -> Result<(), AllocError>
    ensures { OnOk result (out.new.items ≡ out.old.items ++ text.passed_text (option_map view.passed x.now)) }
{
    match x {
        None => Ok(()),
        Some(passed) => {
            put(out, b":")?;
            put(out, b"super")?;
            put(out, b"(")?;
            print_exprs(alloc, out, passed.args.as_slice())?;
            put(out, b")")
        }
    }
}

/// `void` where a method has its class's own name.
fn print_void(out: &mut Vec<u8>, name: &[u8], class: &[u8]) -> Result<(), AllocError>
    ensures { OnOk result (out.new.items ≡ out.old.items ++ (if same_text name.now class.now then text.word (codes "void") else [])) }
{
    if same_text(name, class) {
        put(out, b"void")?;
    }
    Ok(())
}

fn print_member(
    alloc: Global,
    out: &mut Vec<u8>,
    class: &[u8],
    x: &Member,
) -> Result<(), AllocError>
    ensures { OnOk result (out.new.items ≡ out.old.items ++ text.member_text class.now (view.member x.now)) }
{
    match x {
        Member::Field(x) => print_local(alloc, out, x),
        Member::Method(name, params, body) => {
            print_void(out, name.text.as_slice(), class)?;
            put(out, name.text.as_slice())?;
            print_params(out, params.as_slice())?;
            print_some_body(alloc, out, body)
        }
        Member::Getter(name, body) => {
            put(out, b"get")?;
            put(out, name.text.as_slice())?;
            print_some_body(alloc, out, body)
        }
        Member::Setter(name, param, body) => {
            put(out, b"set")?;
            put(out, name.text.as_slice())?;
            put(out, b"(")?;
            print_param(out, param)?;
            put(out, b")")?;
            print_some_body(alloc, out, body)
        }
        Member::Operator(operator, _, params, body) => {
            put(out, b"operator")?;
            put_operator(out, *operator)?;
            print_params(out, params.as_slice())?;
            print_some_body(alloc, out, body)
        }
        Member::Constructor(name, params, passed, body) => {
            put(out, name.text.as_slice())?;
            print_params(out, params.as_slice())?;
            print_passed(alloc, out, passed)?;
            print_some_block(alloc, out, body)
        }
    }
}

fn print_members(
    alloc: Global,
    out: &mut Vec<u8>,
    class: &[u8],
    all: &[Member],
) -> Result<(), AllocError>
    ensures { OnOk result (out.new.items ≡ out.old.items ++ flat_map (text.member_text class.now) (map view.member all.now)) }
{
    for x in all {
        print_member(alloc, out, class, x)?;
    }
    Ok(())
}

fn print_parent(out: &mut Vec<u8>, x: &Option<Name>) -> Result<(), AllocError>
    ensures { OnOk result (out.new.items ≡ out.old.items ++ text.parent_text x.now) }
{
    match x {
        None => Ok(()),
        Some(name) => {
            put(out, b"extends")?;
            put(out, name.text.as_slice())
        }
    }
}

fn print_interfaces(out: &mut Vec<u8>, all: &[Name]) -> Result<(), AllocError>
    ensures { OnOk result (out.new.items ≡ out.old.items ++ text.interfaces_text all.now) }
{
    if all.is_empty() {
        return Ok(());
    }
    put(out, b"implements")?;
    print_names(out, all)
}

fn print_class(alloc: Global, out: &mut Vec<u8>, x: &ClassDecl) -> Result<(), AllocError>
    ensures { OnOk result (out.new.items ≡ out.old.items ++ text.class_text (view.class x.now)) }
{
    if x.is_abstract {
        put(out, b"abstract")?;
    }
    put(out, b"class")?;
    put(out, x.name.text.as_slice())?;
    print_parent(out, &x.parent)?;
    print_interfaces(out, x.interfaces.as_slice())?;
    put(out, b"{")?;
    print_members(alloc, out, x.name.text.as_slice(), x.members.as_slice())?;
    put(out, b"}")
}

/// What stands before a function that may be entered.
fn print_entry(out: &mut Vec<u8>) -> Result<(), AllocError>
    ensures { OnOk result (out.new.items ≡ out.old.items ++ text.entry_text) }
{
    put(out, b"@")?;
    put(out, b"pragma")?;
    put(out, b"(")?;
    put(out, b"'vm:entry-point'")?;
    put(out, b")")
}

fn print_function(alloc: Global, out: &mut Vec<u8>, x: &Function) -> Result<(), AllocError>
    ensures { OnOk result (out.new.items ≡ out.old.items ++ text.function_text (view.function x.now)) }
{
    if x.is_entry {
        print_entry(out)?;
    }
    put(out, x.name.text.as_slice())?;
    print_params(out, x.params.as_slice())?;
    print_body(alloc, out, &x.body)
}

fn print_top(alloc: Global, out: &mut Vec<u8>, x: &Top) -> Result<(), AllocError>
    ensures { OnOk result (out.new.items ≡ out.old.items ++ text.top_text (view.top x.now)) }
{
    match x {
        Top::Class(x) => print_class(alloc, out, x),
        Top::Function(x) => print_function(alloc, out, x),
        Top::Variable(x) => print_local(alloc, out, x),
    }
}

fn print_tops(alloc: Global, out: &mut Vec<u8>, all: &[Top]) -> Result<(), AllocError>
    ensures { OnOk result (out.new.items ≡ out.old.items ++ flat_map text.top_text (map view.top all.now)) }
{
    for x in all {
        print_top(alloc, out, x)?;
    }
    Ok(())
}

/// The canonical text of the tree.
pub fn print_tree(alloc: Global, tree: &Tree) -> Result<Vec<u8>, NoMemory>
    ensures text { IfOk result (λ out. out.items ≡ text.text (view.unit tree.now)) }
    // Where some list of possible tokens derives the tree, the text has a token list, and that list derives the tree again, spans aside.
    ensures reads_back { IfOk result (λ out. (list : List Token) → ArePossible list → Derives list (view.unit tree.now) → ReadsBack out.items (view.unit tree.now)) }
{
    canonical_text_reads_back();
    let mut out = Vec::new(alloc);
    print_tops(alloc, &mut out, tree.tops.as_slice())?;
    let _space = out.pop();
    out.push(b'\n')?;
    Ok(out)
}
