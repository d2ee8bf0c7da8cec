//! Which classes are above a class, by `extends` and `implements`.

ghost use Rattle.std.specs.Prelude.{◌≡◌, ℕ, Bool, ◌||◌, map, flat_map, IfOk, OnOk};
ghost use Rattle.std.specs.List.{list_any};
ghost use Rattle.dart_syntax.specs.Bytes.{Text};
ghost use Rattle.std.specs.Str.{bytes_eq};
ghost use Rattle.class_chains.specs.Ranking.{above_of, reaches, texts, name_texts, parent_text, AreIn};
ghost use Rattle.declaration_rules.specs.Finding.{found_in};
ghost use Rattle.declaration_rules.specs.Seen.{has};

use dart_syntax::tree::{ClassDecl, Name};
use declaration_rules::note;
use std::alloc::{AllocError, Global};
use std::collections::{HashMap, HashSet};

const OBJECT: &[u8] = b"Object";

/// The name of a class on the way up.
#[derive(Clone, Copy)]
pub struct Reached<'a> {
    pub text: &'a [u8],
}

fn bytes_of<'a>(reached: &Reached<'a>) -> &'a [u8]
    ensures { result.now ≡ reached.now.text.now }
{
    reached.text
}

/// Names, each once.
#[derive(Drop)]
pub struct Level<'a> {
    names: Vec<Reached<'a>>,
    seen: HashSet<&'a [u8]>,
}

impl<'a> Level<'a> {
    /// Takes a name, unless it is there.
    fn add(&mut self, text: &'a [u8]) -> Result<(), AllocError>
        requires { AreIn (has self.old.seen) (texts self.old.names.items) }
        ensures each { OnOk result (AreIn (has self.new.seen) (texts self.new.names.items)) }
        ensures any { OnOk result ((p : Text → Bool) → list_any p (texts self.new.names.items) ≡ (list_any p (texts self.old.names.items) || p text.now)) }
    {
        if !note(&mut self.seen, text)? {
            return Ok(());
        }
        self.names.push(Reached { text })?;
        Ok(())
    }

    fn add_all(&mut self, all: &'a [Name]) -> Result<(), AllocError>
        requires { AreIn (has self.old.seen) (texts self.old.names.items) }
        ensures each { OnOk result (AreIn (has self.new.seen) (texts self.new.names.items)) }
        ensures any { OnOk result ((p : Text → Bool) → list_any p (texts self.new.names.items) ≡ (list_any p (texts self.old.names.items) || list_any p (name_texts all.now))) }
    {
        for name in all {
            self.add(name.text.as_slice())?;
        }
        Ok(())
    }

    fn add_parent(&mut self, parent: &'a Option<Name>) -> Result<(), AllocError>
        requires { AreIn (has self.old.seen) (texts self.old.names.items) }
        ensures each { OnOk result (AreIn (has self.new.seen) (texts self.new.names.items)) }
        ensures any { OnOk result ((p : Text → Bool) → list_any p (texts self.new.names.items) ≡ (list_any p (texts self.old.names.items) || p (parent_text parent.now))) }
    {
        match parent {
            Some(name) => {
                self.add(name.text.as_slice())?;
                Ok(())
            }
            None => {
                self.add(OBJECT)?;
                Ok(())
            }
        }
    }

    fn add_class(&mut self, c: &'a ClassDecl) -> Result<(), AllocError>
        requires { AreIn (has self.old.seen) (texts self.old.names.items) }
        ensures each { OnOk result (AreIn (has self.new.seen) (texts self.new.names.items)) }
        ensures any { OnOk result ((p : Text → Bool) → list_any p (texts self.new.names.items) ≡ (list_any p (texts self.old.names.items) || (p (parent_text c.now.parent) || list_any p (name_texts c.now.interfaces)))) }
    {
        self.add_parent(&c.parent)?;
        self.add_all(c.interfaces.as_slice())?;
        Ok(())
    }

    /// Takes the names directly above a class.
    fn add_above(
        &mut self,
        known: &HashMap<&'a [u8], &'a ClassDecl>,
        text: &[u8],
    ) -> Result<(), AllocError>
        requires { AreIn (has self.old.seen) (texts self.old.names.items) }
        ensures each { OnOk result (AreIn (has self.new.seen) (texts self.new.names.items)) }
        ensures any { OnOk result ((p : Text → Bool) → list_any p (texts self.new.names.items) ≡ (list_any p (texts self.old.names.items) || list_any p (above_of (found_in known.now) text.now))) }
    {
        let Some(c) = known.get(&text).copied() else {
            if text == OBJECT {
                return Ok(());
            }
            self.add(OBJECT)?;
            return Ok(());
        };
        self.add_class(c)?;
        Ok(())
    }
}

/// The names directly above these.
fn next_level<'a>(
    alloc: Global,
    known: &HashMap<&'a [u8], &'a ClassDecl>,
    level: &[Reached<'a>],
) -> Result<Vec<Reached<'a>>, AllocError>
    ensures { IfOk result (λ next. (p : Text → Bool) → list_any p (texts next.items) ≡ list_any p (flat_map (above_of (found_in known.now)) (texts level.now))) }
{
    let mut next = Level {
        names: Vec::new(alloc),
        seen: HashSet::new(alloc),
    };
    for i in 0..level.len() {
        next.add_above(known, bytes_of(&level[i]))?;
    }
    Ok(next.names)
}

fn is_there(level: &[Reached<'_>], text: &[u8]) -> bool
    ensures { result ≡ list_any (λ r. bytes_eq r.text.now text.now) level.now }
{
    level.iter().any(|reached| reached.text == text)
}

/// Whether one of these names is a class, or leads up to it in less than so many steps. Each turn goes up by one step.
pub fn is_reached<'a>(
    alloc: Global,
    known: &HashMap<&'a [u8], &'a ClassDecl>,
    start: Vec<Reached<'a>>,
    class: &[u8],
    most: usize,
) -> Result<bool, AllocError>
    ensures { IfOk result (λ found. found ≡ list_any (λ t. reaches most (found_in known.now) t class.now) (texts start.entry.items)) }
{
    let mut level = start;
    let mut left = most;
    while left > 0 {
        if is_there(&level, class) {
            return Ok(true);
        }
        level = next_level(alloc, known, &level)?;
        left -= 1;
    }
    Ok(false)
}
