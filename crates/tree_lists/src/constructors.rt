//! Written constructors.

ghost use Rattle.std.specs.Prelude.{◌≡◌, IfOk, map, option_map, length, Some};
ghost use Rattle.dart_syntax.specs.View as view;
ghost use Rattle.dart_meaning.specs.Classes as c;
ghost use Rattle.dart_meaning.specs.Numbering as num;
ghost use Rattle.dart_meaning.specs.Forms.{constructor_form};
ghost use Rattle.dart_meaning.specs.NumberedForm.{numbered_constructor};
ghost use Rattle.tree_numbers.specs.Parts.{text_of};
ghost use Rattle.tree_lists.specs.Locals.{written, set_by};

use crate::bodies::{block_of, passed_of};
use crate::inside::{Inside, SiteNumbers};
use crate::params::{defaults, required};
use dart_syntax::tree::{Member, Param, Passed, Stmt};
use ds_base::NoMemory;
use program::Constructor;
use sqlite_items::Items;
use std::alloc::Global;
use tree_numbers::TreeNumbers;

/// The field that a parameter sets, if it is a `this.x`.
fn set_by(
    numbers: &TreeNumbers,
    class: &[u8],
    above: usize,
    p: &Param,
) -> Result<Option<u32>, NoMemory>
    requires { above ≡ length (c.fields_above (view.unit numbers.now.tree.now) class.now) }
    ensures { IfOk result (λ to. to ≡ set_by (view.unit numbers.now.tree.now) class.now (view.param p.now)) }
{
    if p.is_field {
        let place = numbers.field_place(class, above, p.name.text.as_slice())?;
        Ok(Some(place))
    } else {
        Ok(None)
    }
}

/// For each parameter the field that it sets, if any.
fn sets(
    alloc: Global,
    numbers: &TreeNumbers,
    class: &[u8],
    above: usize,
    params: &[Param],
) -> Result<Items<Option<u32>>, NoMemory>
    requires { above ≡ length (c.fields_above (view.unit numbers.now.tree.now) class.now) }
    ensures { IfOk result (λ all. all ≡ num.sets (view.unit numbers.now.tree.now) class.now (map view.param params.now)) }
{
    let mut all = Items::new(alloc);
    for p in params {
        all.push(set_by(numbers, class, above, p)?)?;
    }
    Ok(all)
}

fn constructor<'a, S: SiteNumbers>(
    alloc: Global,
    inside: &Inside<S>,
    class: &[u8],
    above: usize,
    params: &'a [Param],
    passed: &Option<Passed>,
    body: &'a Option<Items<Stmt>>,
) -> Result<Constructor, NoMemory>
    requires sites { S.tree inside.now.sites.now ≡ view.unit inside.now.numbers.now.tree.now }
    requires here { option_map text_of inside.now.here ≡ Some class.now }
    requires above { above ≡ length (c.fields_above (view.unit inside.now.numbers.now.tree.now) class.now) }
    ensures { IfOk result (λ k. constructor_form k ≡ numbered_constructor (view.unit inside.now.numbers.now.tree.now) class.now (written (map view.param params.now) (option_map view.passed passed.now) (option_map view.all_stas body.now))) }
{
    Ok(Constructor {
        required: required(params)?,
        defaults: defaults(alloc, params)?,
        sets: sets(alloc, inside.numbers, class, above, params)?,
        passes: passed_of(alloc, inside, params, passed)?,
        body: block_of(alloc, inside, params, body)?,
    })
}

fn constructor_in<'a, S: SiteNumbers>(
    alloc: Global,
    inside: &Inside<S>,
    class: &[u8],
    above: usize,
    m: &'a Member,
) -> Result<Option<Constructor>, NoMemory>
    requires sites { S.tree inside.now.sites.now ≡ view.unit inside.now.numbers.now.tree.now }
    requires here { option_map text_of inside.now.here ≡ Some class.now }
    requires above { above ≡ length (c.fields_above (view.unit inside.now.numbers.now.tree.now) class.now) }
    ensures { IfOk result (λ k. option_map constructor_form k ≡ option_map (numbered_constructor (view.unit inside.now.numbers.now.tree.now) class.now) (c.constructor_in (view.member m.now))) }
{
    match m {
        Member::Constructor(_, params, passed, body) => {
            let params = params.as_slice();
            let k = constructor(alloc, inside, class, above, params, passed, body)?;
            Ok(Some(k))
        }
        Member::Field(_)
        | Member::Method(_, _, _)
        | Member::Getter(_, _)
        | Member::Setter(_, _, _)
        | Member::Operator(_, _, _, _) => Ok(None),
    }
}

/// The first constructor among members, if any.
pub fn first_constructor<'a, S: SiteNumbers>(
    alloc: Global,
    inside: &Inside<S>,
    class: &[u8],
    above: usize,
    members: &'a [Member],
) -> Result<Option<Constructor>, NoMemory>
    requires sites { S.tree inside.now.sites.now ≡ view.unit inside.now.numbers.now.tree.now }
    requires here { option_map text_of inside.now.here ≡ Some class.now }
    requires above { above ≡ length (c.fields_above (view.unit inside.now.numbers.now.tree.now) class.now) }
    ensures { IfOk result (λ k. option_map constructor_form k ≡ option_map (numbered_constructor (view.unit inside.now.numbers.now.tree.now) class.now) (c.first_some (map c.constructor_in (map view.member members.now)))) }
{
    for m in members {
        if let Some(k) = constructor_in(alloc, inside, class, above, m)? {
            return Ok(Some(k));
        }
    }
    Ok(None)
}
