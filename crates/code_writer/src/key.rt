// Literals as keys of a set.
ghost use Rattle.std.specs.Prelude.{◌≡◌, OnOk, IfOk};
ghost use Rattle.code_writer.specs.Constants.{literal_of, held, number_in, with_literal};

use indexmap::IndexSet;
use program::Literal;
use std::alloc::AllocError;

/// A literal, whose text stays where it is.
#[derive(Clone, Copy, PartialEq, Eq, Hash)]
pub enum Key<'a> {
    Null,
    Bool(bool),
    Int(i64),
    Text(&'a [u16]),
}

/// A literal of the program.
pub fn key_of<'a>(literal: &'a Literal) -> Key<'a>
    ensures { literal_of result ≡ literal.now }
{
    match literal {
        Literal::Null => Key::Null,
        Literal::Bool(b) => Key::Bool(*b),
        Literal::Int(n) => Key::Int(*n),
        Literal::Str(units) => Key::Text(units.as_slice()),
    }
}

/// Takes a literal to those that are known, and answers its number.
pub fn note<'a>(known: &mut IndexSet<Key<'a>>, literal: Key<'a>) -> Result<u32, AllocError>
    ensures known { OnOk result (held known.new ≡ with_literal (literal_of literal.entry) (held known.old)) }
    ensures number { IfOk result (λ n. n ≡ number_in (held known.old) (literal_of literal.entry)) }
{
    let (number, _) = known.insert_full(literal)?;
    if number < 4294967296 {
        Ok(number as u32)
    } else {
        Err(AllocError)
    }
}
