//! The classes of a tree by their numbers, which are their places in the text, and the ways up from them by `extends`.

ghost use Rattle.std.specs.Prelude.{◌≡◌, ◌+◌, true, length, map, option_map, position, IfOk, OnOk};
ghost use Rattle.std.specs.List.{slice_get};
ghost use Rattle.std.specs.Str.{bytes_eq};
ghost use Rattle.dart_syntax.specs.View.{member};
ghost use Rattle.dart_meaning.specs.Classes.{first_some, parent_of, if_so};
ghost use Rattle.program.specs.Lookup.{is_declared_by};
ghost use Rattle.program.specs.declared.numbered.SelectorKind.TheVariants.{Call};
ghost use Rattle.static_rules.specs.BadOverride.{own_count};
ghost use Rattle.declaration_rules.specs.Finding.{named_of, or_first};
ghost use Rattle.declaration_rules.specs.Seen.{class_of};
ghost use Rattle.class_chains.specs.Overriding.{number_in, is_number, found_at, find_in, own_in, built_in_by, required_of, count_up, above};

use dart_syntax::tree::{ClassDecl, Member};
use declaration_rules::sum;
use program::{Class, Method, Numbered, SelectorKind};
use std::alloc::{AllocError, Global};
use std::collections::HashMap;

const OBJECT: &[u8] = b"Object";

/// How many parameters a member has, if it is a method of this name.
fn count_of(m: &Member, name: &[u8]) -> Option<usize>
    ensures { result ≡ own_count name.now (member m.now) }
{
    match m {
        Member::Method(own, params, _) => {
            if own.text.as_slice() == name {
                Some(params.len())
            } else {
                None
            }
        }
        Member::Field(_)
        | Member::Getter(_, _)
        | Member::Setter(_, _, _)
        | Member::Operator(_, _, _, _)
        | Member::Constructor(_, _, _, _) => None,
    }
}

fn count_of_all(members: &[Member], name: &[u8]) -> Option<usize>
    ensures { result ≡ first_some (map (own_count name.now) (map member members.now)) }
{
    for m in members {
        if let Some(count) = count_of(m, name) {
            return Some(count);
        }
    }
    None
}

/// The number of a built-in class.
pub fn class_place(classes: &[Class], class: &[u8]) -> Option<usize>
    ensures { result ≡ position (λ k. bytes_eq class.now k.name) classes.now }
{
    classes.iter().position(|k| class == k.name.as_slice())
}

fn is_declared_by(m: &Method, number: usize, name: &[u8]) -> bool
    ensures { result ≡ is_declared_by number Call name.now m.now }
{
    usize::from(m.owner.0) == number
        && matches!(m.role, SelectorKind::Call)
        && m.name.as_slice() == name
}

/// The parameters of the first built-in method of a class that has this name.
fn required_of(methods: &[Method], number: usize, name: &[u8]) -> Option<usize>
    ensures { result ≡ required_of methods.now number name.now }
{
    for m in methods {
        if is_declared_by(m, number, name) {
            return Some(m.required as usize);
        }
    }
    None
}

/// The class of a name, among classes whose numbers are known by their names.
fn class_in<'a>(
    all: &[&'a ClassDecl],
    numbers: &HashMap<&'a [u8], usize>,
    name: &[u8],
) -> Option<&'a ClassDecl>
    ensures { option_map class_of result ≡ found_at all.now numbers.now name.now }
{
    match numbers.get(&name).copied() {
        Some(number) => all.get(number).copied(),
        None => None,
    }
}

/// Takes the number of a class to those that are known by their names, unless a class of its name is known.
fn keep_first<'a>(
    all: &[&'a ClassDecl],
    numbers: &mut HashMap<&'a [u8], usize>,
    number: usize,
    c: &'a ClassDecl,
) -> Result<(), AllocError>
    requires { slice_get all.now number ≡ Some c }
    ensures { OnOk result ((q : _) → found_at all.now numbers.new q ≡ or_first (found_at all.now numbers.old q) (if_so (bytes_eq c.now.name.text q) (class_of c.entry))) }
{
    let text = c.name.text.as_slice();
    if class_in(all, numbers, text).is_some() {
        return Ok(());
    }
    numbers.insert(text, number)?;
    Ok(())
}

/// The numbers of the classes by their names, the first of each name.
fn numbers_of<'a>(
    alloc: Global,
    all: &[&'a ClassDecl],
) -> Result<HashMap<&'a [u8], usize>, AllocError>
    ensures { IfOk result (λ numbers. (q : _) → found_at all.now numbers q ≡ named_of (map class_of all.now) q) }
{
    let mut numbers = HashMap::new(alloc);
    for number in 0..all.len() {
        keep_first(all, &mut numbers, number, all[number])?;
    }
    Ok(numbers)
}

/// The classes of a tree, and the built-in ones.
#[derive(Drop)]
pub struct Chains<'a> {
    all: Vec<&'a ClassDecl>,
    numbers: HashMap<&'a [u8], usize>,
    built_in: &'a Numbered,
    /// No way up has more classes above the first.
    most: usize,
}

/// What is known of these classes.
pub fn chains_of<'a>(
    alloc: Global,
    all: Vec<&'a ClassDecl>,
    built_in: &'a Numbered,
) -> Result<Chains<'a>, AllocError>
    ensures all { IfOk result (λ k. k.all.items ≡ all.entry.items) }
    ensures built_in { IfOk result (λ k. k.built_in.now ≡ built_in.now) }
    ensures found { IfOk result (λ k. (q : _) → find_in k q ≡ named_of (map class_of k.all.items) q) }
    ensures most { IfOk result (λ k. k.most ≡ 6 + length k.all.items) }
{
    let numbers = numbers_of(alloc, &all)?;
    let most = sum(6, all.len())?;
    Ok(Chains {
        all,
        numbers,
        built_in,
        most,
    })
}

impl<'a> Chains<'a> {
    /// The classes, in the order of the text.
    pub fn all(&self) -> &[&'a ClassDecl]
        ensures { result.now ≡ self.now.all.items }
    {
        &self.all
    }

    /// The number of classes above another one that no way up exceeds.
    pub fn most(&self) -> usize
        ensures { result ≡ self.now.most }
    {
        self.most
    }

    /// The built-in classes and members.
    pub fn built_in(&self) -> &'a Numbered
        ensures { result.now ≡ self.now.built_in.now }
    {
        self.built_in
    }

    /// The class of a number.
    pub fn class_at(&self, number: usize) -> Option<&'a ClassDecl>
        ensures { result ≡ slice_get self.now.all.items number }
    {
        self.all.get(number).copied()
    }

    /// The class of a name.
    pub fn class_named(&self, name: &[u8]) -> Option<&'a ClassDecl>
        ensures { option_map class_of result ≡ find_in self.now name.now }
    {
        class_in(&self.all, &self.numbers, name)
    }

    /// The number of a name's class.
    pub fn number_of(&self, name: &[u8]) -> Option<usize>
        ensures { result ≡ number_in self.now.numbers name.now }
    {
        self.numbers.get(&name).copied()
    }

    /// Whether the class of this number is the one that its name means.
    pub fn is_first(&self, number: usize, name: &[u8]) -> bool
        ensures exact { result ≡ is_number number (number_in self.now.numbers name.now) }
        ensures found { result ≡ true → find_in self.now name.now ≡ option_map class_of (slice_get self.now.all.items number) }
    {
        self.number_of(name) == Some(number)
    }

    fn built_in_count(&self, class: &[u8], name: &[u8]) -> Option<usize>
        ensures { result ≡ built_in_by self.now.built_in.now.classes self.now.built_in.now.methods class.now name.now }
    {
        let number = class_place(self.built_in.classes.as_slice(), class)?;
        required_of(self.built_in.methods.as_slice(), number, name)
    }

    /// How many parameters a class's own method of a name has.
    fn count_in(&self, class: &[u8], name: &[u8]) -> Option<usize>
        ensures { result ≡ own_in self.now name.now class.now }
    {
        match self.class_named(class) {
            Some(c) => count_of_all(c.members.as_slice(), name),
            None => self.built_in_count(class, name),
        }
    }

    /// The class directly above one by `extends`.
    pub fn parent(&self, class: &[u8]) -> Option<&'a [u8]>
        ensures { option_map (λ t. t.now) result ≡ parent_of (find_in self.now class.now) class.now }
    {
        match self.class_named(class) {
            Some(c) => match &c.parent {
                Some(name) => Some(name.text.as_slice()),
                None => Some(OBJECT),
            },
            None => { if class == OBJECT { None } else { Some(OBJECT) } }
        }
    }

    /// That of the nearest method of a name, from a class up, where no more than so many classes are looked at.
    fn count_up(&self, class: &'a [u8], name: &[u8], most: usize) -> Option<usize>
        ensures { result ≡ count_up (own_in self.now name.now) (find_in self.now) most class.now }
    {
        let mut at = class;
        let mut left = most;
        while left > 0 {
            if let Some(count) = self.count_in(at, name) {
                return Some(count);
            }
            let Some(parent) = self.parent(at) else {
                return None;
            };
            at = parent;
            left -= 1;
        }
        None
    }

    /// That of the nearest above a class, by the way up. It takes time with each class on it.
    #[tactic(auto, unfolding(crate::specs::Overriding::above))]
    pub fn count_above(&self, class: &[u8], name: &[u8]) -> Option<usize>
        ensures { result ≡ above self.now class.now name.now }
    {
        let parent = self.parent(class)?;
        self.count_up(parent, name, self.most)
    }
}
