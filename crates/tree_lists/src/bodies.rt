//! The bodies of functions and members, and the two parts of a constructor, in the tree's numbers.

ghost use Rattle.std.specs.Prelude.{◌≡◌, IfOk, map, option_map};
ghost use Rattle.dart_syntax.specs.View as view;
ghost use Rattle.dart_meaning.specs.Sites.{site_of};
ghost use Rattle.dart_meaning.specs.Numbering as num;
ghost use Rattle.dart_meaning.specs.Forms.{body_form};
ghost use Rattle.dart_meaning.specs.NumberedForm.{numbered_body};
ghost use Rattle.body_numbers.specs.Views.{exps_of, stas_of};
ghost use Rattle.body_numbers.specs.Bodies.{passed_args, block_or_none};
ghost use Rattle.tree_numbers.specs.Parts.{text_of};

use crate::inside::{Inside, SiteNumbers};
use dart_syntax::tree::{self, Param, Passed, Stmt};
use ds_base::NoMemory;
use program::{Body, Expression, Statement};
use sqlite_items::Items;
use std::alloc::Global;

/// The body of a function or of a member with these parameters.
pub fn body_of<'a, S: SiteNumbers>(
    alloc: Global,
    inside: &Inside<S>,
    params: &'a [Param],
    body: &'a tree::Body,
) -> Result<Body, NoMemory>
    requires { S.tree inside.now.sites.now ≡ view.unit inside.now.numbers.now.tree.now }
    ensures { IfOk result (λ b. body_form b ≡ numbered_body (view.unit inside.now.numbers.now.tree.now) (option_map text_of inside.now.here) (num.param_names (map view.param params.now)) (view.body body.now)) }
{
    let b = body_numbers::body_of(alloc, inside, params, body)?;
    Ok(b)
}

/// What a constructor with these parameters passes to its superclass.
pub fn passed_of<S: SiteNumbers>(
    alloc: Global,
    inside: &Inside<S>,
    params: &[Param],
    passed: &Option<Passed>,
) -> Result<Items<Expression>, NoMemory>
    requires { S.tree inside.now.sites.now ≡ view.unit inside.now.numbers.now.tree.now }
    ensures { IfOk result (λ xs. exps_of xs ≡ num.exps (view.unit inside.now.numbers.now.tree.now) (site_of (view.unit inside.now.numbers.now.tree.now)) (option_map text_of inside.now.here) (num.param_names (map view.param params.now)) (passed_args (option_map view.passed passed.now))) }
{
    let all = body_numbers::passed_of(alloc, inside, params, passed)?;
    Ok(all)
}

/// The body of a constructor with these parameters.
pub fn block_of<'a, S: SiteNumbers>(
    alloc: Global,
    inside: &Inside<S>,
    params: &'a [Param],
    body: &'a Option<Items<Stmt>>,
) -> Result<Items<Statement>, NoMemory>
    requires { S.tree inside.now.sites.now ≡ view.unit inside.now.numbers.now.tree.now }
    ensures { IfOk result (λ xs. stas_of xs ≡ num.stas (view.unit inside.now.numbers.now.tree.now) (site_of (view.unit inside.now.numbers.now.tree.now)) (option_map text_of inside.now.here) (num.body_names (map view.param params.now)) (block_or_none (option_map view.all_stas body.now))) }
{
    let all = body_numbers::block_of(alloc, inside, params, body)?;
    Ok(all)
}
