//! The numbers of a tree.

ghost use Rattle.std.specs.Prelude.{◌≡◌, ◌+◌, ◌||◌, [], IfOk, is_some, option_map, unwrap_or, length, find};
ghost use Rattle.std.specs.Str.{bytes_eq};
ghost use Rattle.dart_syntax.specs.View.{unit};
ghost use Rattle.program.specs.BuiltIn.{built_in_members};
ghost use Rattle.dart_meaning.specs.Classes as c;
ghost use Rattle.dart_meaning.specs.Numbering as num;
ghost use Rattle.tree_numbers.specs.Maps.{in_map};
ghost use Rattle.tree_numbers.specs.Parts.{class_of, text_of, texts};
ghost use Rattle.tree_numbers.specs.ClassFacts.{facts_of, knows};
ghost use Rattle.tree_numbers.specs.Members.{held};
ghost use Rattle.tree_numbers.specs.Order.{above_in};
ghost use Rattle.tree_numbers.specs.Walks.{fields_up, owns_by, owner_up};
ghost use Rattle.tree_numbers.specs.Asked.{known_of, decl_of, has_name, declares_in, is_made, own_place};
ghost use Rattle.tree_numbers.specs.Exact.{IsExact};

use crate::class_facts::{ClassFacts, classes_by_name};
use crate::known::is_in;
use crate::members::{MemberNumbers, all_keys, member_numbers, number_of};
use crate::order::{NO_NAME, OBJECT, above, class_of, class_order};
use crate::parts::{classes_of, function_names, variable_names};
use crate::places::{numbers_of, places_of, word};
use crate::walks::{fields_up, owner_up, sum};
use dart_syntax::tree::{ClassDecl, Tree};
use ds_base::NoMemory;
use program::{ClassId, Method, MethodId, SelectorKind};
use std::alloc::Global;
use std::collections::HashMap;

/// The names of a tree, by maps, and the numbers of what they stand for.
#[derive(Drop)]
pub struct TreeNumbers<'a> {
    pub tree: &'a Tree,
    pub built_in: &'a [Method],
    pub(crate) classes: HashMap<&'a [u8], ClassFacts<'a>>,
    /// So many levels and one more are on no way up.
    pub(crate) levels: usize,
    order: Vec<&'a [u8]>,
    numbers: HashMap<&'a [u8], u16>,
    pub(crate) members: MemberNumbers<'a>,
    functions: HashMap<&'a [u8], u32>,
    variables: HashMap<&'a [u8], u32>,
    ghost exact: { ∥ IsExact (unit tree.now) built_in.now (knows classes) levels (texts order.items) (in_map numbers) (held members) (in_map functions) (in_map variables) ∥₁ },
}

/// The levels of a tree's hierarchy, one less than there are classes.
fn levels_of(classes: &[&ClassDecl]) -> Result<usize, NoMemory>
    ensures { IfOk result (λ n. n ≡ 6 + length classes.now) }
{
    sum(6, classes.len())
}

fn decl_of<'a>(facts: Option<&ClassFacts<'a>>) -> Option<&'a ClassDecl>
    ensures { option_map class_of result ≡ decl_of (option_map (λ n. facts_of n.now) facts.entry) }
{
    match facts {
        Some(facts) => Some(facts.decl),
        None => None,
    }
}

fn has_name(facts: Option<&ClassFacts>, name: &[u8]) -> bool
    ensures { result ≡ has_name (option_map (λ n. facts_of n.now) facts.entry) name.now }
{
    match facts {
        Some(facts) => is_in(&facts.named, name),
        None => false,
    }
}

fn is_made(facts: Option<&ClassFacts>) -> bool
    ensures { result ≡ is_made (option_map (λ n. facts_of n.now) facts.entry) }
{
    match facts {
        Some(facts) => !facts.decl.is_abstract,
        None => false,
    }
}

#[tactic(auto, unfolding(crate::specs::Maps::in_map))]
fn own_place(facts: Option<&ClassFacts>, name: &[u8]) -> u32
    ensures { result ≡ own_place (option_map (λ n. facts_of n.now) facts.entry) name.now }
{
    match facts {
        Some(facts) => facts.fields.get(&name).copied().unwrap_or(0),
        None => 0,
    }
}

impl<'a> TreeNumbers<'a> {
    /// Reads the names off a tree, and gives numbers.
    pub fn of(
        alloc: Global,
        tree: &'a Tree,
        built_in: &'a [Method],
    ) -> Result<TreeNumbers<'a>, NoMemory>
        requires { built_in.now ≡ built_in_members }
        ensures tree { IfOk result (λ numbers. numbers.tree ≡ tree.entry) }
        ensures classes { IfOk result (λ numbers. knows numbers.classes ≡ known_of (unit tree.now)) }
    {
        let tops = tree.tops.as_slice();
        let decls = classes_of(alloc, tops)?;
        let levels = levels_of(&decls)?;
        let classes = classes_by_name(alloc, &decls)?;
        let order = class_order(alloc, &classes, &decls, levels)?;
        let numbers = numbers_of(alloc, &order)?;
        let keys = all_keys(alloc, built_in, &order, &decls)?;
        let members = member_numbers(alloc, &keys)?;
        let functions = places_of(alloc, &function_names(alloc, tops)?)?;
        let variables = places_of(alloc, &variable_names(alloc, tops)?)?;
        Ok(TreeNumbers {
            tree,
            built_in,
            classes,
            levels,
            order,
            numbers,
            members,
            functions,
            variables,
        })
    }

    /// The names of the classes by their numbers.
    pub fn class_names(&self) -> &[&'a [u8]]
        ensures { texts result.now ≡ c.class_names (unit self.now.tree.now) }
    {
        self.order.as_slice()
    }

    /// The class that a name stands for, if the text has one.
    pub fn decl(&self, class: &[u8]) -> Option<&'a ClassDecl>
        ensures { option_map class_of result ≡ decl_of (knows self.now.classes class.now) }
    {
        decl_of(class_of(&self.classes, class))
    }

    #[tactic(auto, unfolding(crate::specs::Maps::in_map))]
    fn number_in(&self, name: &[u8]) -> u16
        ensures { result ≡ unwrap_or (in_map self.now.numbers name.now) 0 }
    {
        self.numbers.get(&name).copied().unwrap_or(0)
    }

    /// The number of a class, 0 where there is none.
    pub fn class_number(&self, name: &[u8]) -> ClassId
        ensures { result.0 ≡ c.class_number (unit self.now.tree.now) name.now }
    {
        ClassId(self.number_in(name))
    }

    #[tactic(auto, unfolding(crate::specs::Maps::in_map))]
    fn function_in(&self, name: &[u8]) -> Option<u32>
        ensures { result ≡ in_map self.now.functions name.now }
    {
        self.functions.get(&name).copied()
    }

    pub fn function_number(&self, name: &[u8]) -> Option<u32>
        ensures { result ≡ num.function_number (unit self.now.tree.now) name.now }
    {
        self.function_in(name)
    }

    #[tactic(auto, unfolding(crate::specs::Maps::in_map))]
    fn variable_in(&self, name: &[u8]) -> Option<u32>
        ensures { result ≡ in_map self.now.variables name.now }
    {
        self.variables.get(&name).copied()
    }

    /// A variable's place among the variables of the text.
    pub fn variable_place(&self, name: &[u8]) -> Option<u32>
        ensures { result ≡ c.variable_place (unit self.now.tree.now) name.now }
    {
        self.variable_in(name)
    }

    fn declares_in(&self, here: Option<&[u8]>, name: &[u8]) -> bool
        ensures { result ≡ declares_in (knows self.now.classes) (option_map text_of here.entry) name.now }
    {
        match here {
            Some(class) => has_name(class_of(&self.classes, class), name),
            None => false,
        }
    }

    /// The class that holds a body, if any, declares a member of this name.
    pub fn class_declares(&self, here: Option<&[u8]>, name: &[u8]) -> bool
        ensures { result ≡ c.class_declares (unit self.now.tree.now) (option_map text_of here.entry) name.now }
    {
        self.declares_in(here, name)
    }

    fn is_made(&self, name: &[u8]) -> bool
        ensures { result ≡ (bytes_eq name.now c.object || is_made (knows self.now.classes name.now)) }
    {
        name == OBJECT || is_made(class_of(&self.classes, name))
    }

    /// A call of the name makes an object.
    pub fn is_constructed(&self, name: &[u8]) -> bool
        ensures { result ≡ c.is_constructed (unit self.now.tree.now) name.now }
    {
        self.is_made(name)
    }

    fn above_in(&self, name: &[u8]) -> Option<&'a [u8]>
        ensures { option_map text_of result ≡ above_in (knows self.now.classes) name.now }
    {
        above(&self.classes, name)
    }

    /// The class directly above another one.
    pub fn parent(&self, name: &[u8]) -> Option<&'a [u8]>
        ensures { option_map text_of result ≡ c.parent (unit self.now.tree.now) name.now }
    {
        self.above_in(name)
    }

    fn member_in(&self, class: &[u8], kind: SelectorKind, name: &[u8]) -> u16
        ensures { result ≡ unwrap_or (held self.now.members (num.key class.now kind name.now)) 0 }
    {
        number_of(&self.members, class, kind, name)
    }

    /// The number of a member, 0 where there is none.
    pub fn member_number(&self, class: &[u8], kind: SelectorKind, name: &[u8]) -> MethodId
        ensures { result.0 ≡ num.member_number (unit self.now.tree.now) class.now kind name.now }
    {
        MethodId(self.member_in(class, kind, name))
    }

    fn owner_in(&self, class: &'a [u8], kind: SelectorKind, name: &[u8]) -> &'a [u8]
        ensures { result.now ≡ owner_up self.now.levels (owns_by self.now.built_in.now (knows self.now.classes) kind name.now) (above_in (knows self.now.classes)) class.now }
    {
        owner_up(&self.classes, self.built_in, class, kind, name, self.levels)
    }

    /// The first class above one that declares such a member with a body.
    fn super_class(&self, class: &'a [u8], kind: SelectorKind, name: &[u8]) -> &'a [u8]
        ensures { result.now ≡ unwrap_or (find (λ above. is_some (c.own (unit self.now.tree.now) above kind name.now)) (c.chain_above (unit self.now.tree.now) class.now)) [] }
    {
        self.owner_in(class, kind, name)
    }

    /// The number of the first such member above the class that holds a body.
    pub fn super_number(&self, here: Option<&'a [u8]>, kind: SelectorKind, name: &[u8]) -> MethodId
        ensures { (site_of : _) → result.0 ≡ num.super_number (unit self.now.tree.now) site_of (option_map text_of here.entry) kind name.now }
    {
        match here {
            Some(class) => self.member_number(self.super_class(class, kind, name), kind, name),
            None => self.member_number(NO_NAME, kind, name),
        }
    }

    fn fields_in(&self, class: &'a [u8]) -> Result<usize, NoMemory>
        ensures { IfOk result (λ n. n ≡ fields_up self.now.levels (knows self.now.classes) class.now) }
    {
        fields_up(&self.classes, class, self.levels)
    }

    /// How many fields the classes above one declare.
    pub fn fields_above(&self, class: &'a [u8]) -> Result<usize, NoMemory>
        ensures { IfOk result (λ n. n ≡ length (c.fields_above (unit self.now.tree.now) class.now)) }
    {
        let count = self.fields_in(class)?;
        Ok(count)
    }

    fn own_place_in(&self, class: &[u8], name: &[u8]) -> u32
        ensures { result ≡ own_place (knows self.now.classes class.now) name.now }
    {
        own_place(class_of(&self.classes, class), name)
    }

    /// The place in the object of a field, behind those that the classes above declare.
    pub fn field_place(&self, class: &[u8], above: usize, name: &[u8]) -> Result<u32, NoMemory>
        ensures { IfOk result (λ n. above ≡ length (c.fields_above (unit self.now.tree.now) class.now) → n ≡ c.field_place (unit self.now.tree.now) class.now name.now) }
    {
        let place = self.own_place_in(class, name);
        let all = word(sum(above, place as usize)?)?;
        Ok(all)
    }
}
