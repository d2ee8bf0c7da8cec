//! What names of the text stand for.

ghost use Rattle.std.specs.Prelude.{◌≡◌, OnOk, IfOk, map};
ghost use Rattle.dart_syntax.specs.View.{top};
ghost use Rattle.dart_meaning.specs.Means.{top_name};
ghost use Rattle.text_names.specs.Maps.{with_first, nothing_known};
ghost use Rattle.text_names.specs.Tops.{stands_for, also_tops};

use crate::known::{keep_first, nothing_known};
use dart_syntax::tree::Top;
use declaration_rules::top_name;
use std::alloc::{AllocError, Global};
use std::collections::HashMap;

/// No declaration.
fn no_tops<'a>(alloc: Global) -> HashMap<&'a [u8], &'a Top>
    ensures { stands_for result ≡ nothing_known }
{
    nothing_known(alloc)
}

fn keep_top<'a>(known: &mut HashMap<&'a [u8], &'a Top>, t: &'a Top) -> Result<(), AllocError>
    ensures { OnOk result (stands_for known.new ≡ with_first (top_name (top t.now)).text (top t.now) (stands_for known.old)) }
{
    let name = top_name(t);
    keep_first(known, name.text.as_slice(), t)?;
    Ok(())
}

/// The declarations by their names, the first of each name.
pub fn tops_by_name<'a>(
    alloc: Global,
    tops: &'a [Top],
) -> Result<HashMap<&'a [u8], &'a Top>, AllocError>
    ensures { IfOk result (λ known. stands_for known ≡ also_tops (map top tops.now) nothing_known) }
{
    let mut known = no_tops(alloc);
    for t in tops {
        keep_top(&mut known, t)?;
    }
    Ok(known)
}
