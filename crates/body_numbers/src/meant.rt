//! What a bare name stands for.

ghost use Rattle.body_numbers.specs.Meant.{IsMeant};

use crate::numbers::Numbers;
use crate::slots::Slots;

#[derive(Clone, Copy)]
pub enum Meant {
    /// An open variable of the body.
    Slot(u32),
    /// A variable of the text.
    Variable(u32),
    /// A member of `this`.
    Member,
}

pub fn meaning_of<N: Numbers>(numbers: &N, slots: &Slots, name: &[u8]) -> Meant
    ensures { IsMeant (N.tree numbers.now) (N.site_of numbers.now) (N.here numbers.now) slots.now name.now result }
{
    if let Some(slot) = slots.look(name) {
        return Meant::Slot(slot);
    }
    if numbers.class_declares(name) {
        return Meant::Member;
    }
    match numbers.variable_place(name) {
        Some(place) => Meant::Variable(place),
        None => Meant::Member,
    }
}
