// How many variables are open.
ghost use Rattle.std.specs.Prelude.{◌≡◌, ℕ, max, IfOk, map};
ghost use Rattle.program.specs.Bodies.{sta, first};
ghost use Rattle.program.specs.Sound.{after_first};
ghost use Rattle.program_code.specs.Needs.{all_after};
ghost use Rattle.code_writer.specs.Views.{stas_of};
ghost use Rattle.code_writer.specs.EmittedStatements.{most_open, most_open_all, most_of};
ghost use Rattle.body_writer.specs.Variables.{declared};

use code_writer::sum;
use program::{Body, First, Statement};
use std::alloc::AllocError;

/// Whether the statement declares a variable that is open behind it.
pub fn declares(x: &Statement) -> bool
    ensures { result ≡ declared (sta x.now) }
{
    match x {
        Statement::Declare(_) => true,
        Statement::Block(_)
        | Statement::Run(_)
        | Statement::Empty
        | Statement::If(_, _, None)
        | Statement::If(_, _, Some(_))
        | Statement::While(_, _)
        | Statement::For(_, _, _, _)
        | Statement::Do(_, _)
        | Statement::Break
        | Statement::Continue
        | Statement::Return(_) => false,
    }
}

/// How many variables are open behind statements.
pub fn open_behind(all: &[Statement], count: u32) -> Result<u32, AllocError>
    ensures { IfOk result (λ n. n ≡ all_after count (stas_of all.now)) }
{
    let mut n = count;
    for x in all {
        if declares(x) {
            n = sum(n, 1)?;
        }
    }
    Ok(n)
}

/// How many are open in a `for` with this first part.
pub fn open_in_for(start: &First, count: u32) -> Result<u32, AllocError>
    ensures { IfOk result (λ n. n ≡ after_first count (first start.now)) }
{
    match start {
        First::Declares(_) => sum(count, 1),
        First::Nothing | First::Runs(_) => Ok(count),
    }
}

fn greater(a: u32, b: u32) -> u32
    ensures { result ≡ max a b }
{
    if a < b { b } else { a }
}

/// The most variables that are open within a statement.
#[cycle(variables)]
fn most_open(x: &Statement, count: u32) -> Result<u32, AllocError>
    ensures { IfOk result (λ n. n ≡ most_open count (sta x.now)) }
{
    match x {
        Statement::Block(all) => most_open_all(all.as_slice(), count),
        Statement::Declare(_) => sum(count, 1),
        Statement::If(_, x, None) => most_open(x.get(), count),
        Statement::If(_, x, Some(y)) => {
            let n = most_open(x.get(), count)?;
            Ok(greater(n, most_open(y.get(), count)?))
        }
        Statement::While(_, x) => most_open(x.get(), count),
        Statement::For(start, _, _, x) => {
            let inside = open_in_for(start, count)?;
            Ok(greater(inside, most_open(x.get(), inside)?))
        }
        Statement::Do(x, _) => most_open(x.get(), count),
        Statement::Run(_)
        | Statement::Empty
        | Statement::Break
        | Statement::Continue
        | Statement::Return(_) => Ok(count),
    }
}

/// The most that are open within and between statements.
#[cycle(variables)]
pub fn most_open_all(all: &[Statement], count: u32) -> Result<u32, AllocError>
    ensures { IfOk result (λ n. n ≡ most_open_all count (stas_of all.now)) }
{
    let mut n = count;
    let mut most = 0;
    for x in all {
        most = greater(most, most_open(x, n)?);
        if declares(x) {
            n = sum(n, 1)?;
        }
    }
    Ok(greater(most, n))
}

/// The most variables of a body with so many parameters.
pub fn most_of(body: &Body, parameters: u32) -> Result<u32, AllocError>
    ensures { IfOk result (λ n. n ≡ most_of parameters body.now) }
{
    match body {
        Body::Arrow(_) => Ok(parameters),
        Body::Block(all) => most_open_all(all.as_slice(), parameters),
    }
}
