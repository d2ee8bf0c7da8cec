//! The classes of a tree in an order in which each stands behind the one above it, and all below it directly behind it.
//! No clause says so: what the walk takes from the order is asked anew at each class, and another order only costs time.

use crate::chains::Chains;
use std::alloc::{AllocError, Global};

/// The classes directly below each class, and those below none of the text: each list by its first class, and what comes behind each.
#[derive(Drop)]
struct Below {
    first: Vec<Option<usize>>,
    next: Vec<Option<usize>>,
    roots: Option<usize>,
}

/// The number of the class above a class of the text.
fn parent_number(chains: &Chains<'_>, number: usize) -> Option<usize> {
    let c = chains.class_at(number)?;
    let parent = chains.parent(c.name.text.as_slice())?;
    chains.number_of(parent)
}

fn at(all: &[Option<usize>], place: usize) -> Option<usize> {
    all.get(place).copied().unwrap_or(None)
}

fn set(all: &mut Vec<Option<usize>>, place: usize, number: Option<usize>) {
    if place < all.len() {
        all[place] = number;
    }
}

impl Below {
    /// Puts a class before those that are below the same class.
    fn add(&mut self, number: usize, parent: Option<usize>) {
        match parent {
            Some(parent) => {
                set(&mut self.next, number, at(&self.first, parent));
                set(&mut self.first, parent, Some(number));
            }
            None => {
                set(&mut self.next, number, self.roots);
                self.roots = Some(number);
            }
        }
    }
}

fn no_numbers(alloc: Global, count: usize) -> Result<Vec<Option<usize>>, AllocError> {
    let mut all = Vec::new(alloc);
    for _ in 0..count {
        all.push(None)?;
    }
    Ok(all)
}

fn below_of(alloc: Global, chains: &Chains<'_>) -> Result<Below, AllocError> {
    let count = chains.all().len();
    let mut below = Below {
        first: no_numbers(alloc, count)?,
        next: no_numbers(alloc, count)?,
        roots: None,
    };
    let mut left = count;
    while left > 0 {
        left -= 1;
        below.add(left, parent_number(chains, left));
    }
    Ok(below)
}

/// The order, from the roots down. A class that is on a cycle, or below one, is not in it.
pub(crate) fn order_of(alloc: Global, chains: &Chains<'_>) -> Result<Vec<usize>, AllocError> {
    let below = below_of(alloc, chains)?;
    let mut order = Vec::new(alloc);
    let mut left = Vec::new(alloc);
    left.push(below.roots)?;
    for _ in 0..u64::MAX {
        let Some(next) = left.pop() else {
            return Ok(order);
        };
        if let Some(number) = next {
            order.push(number)?;
            left.push(at(&below.next, number))?;
            left.push(at(&below.first, number))?;
        }
    }
    Ok(order)
}
