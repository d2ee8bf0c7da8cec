//! Ranks of classes: one that leads up to another has a greater rank, unless that one leads up to it as well.
//! No clause says so: what ranks tell is asked anew of each class, and wrong ones only cost time.

use dart_syntax::tree::{ClassDecl, Name};
use std::alloc::{AllocError, Global};
use std::collections::HashMap;

/// A class on the walk: when it was met, if it was, the first class on the open path that it leads up to, and whether it is on that path.
#[derive(Clone, Copy)]
struct Node {
    order: usize,
    low: usize,
    is_open: bool,
}

const UNMET: Node = Node {
    order: 0,
    low: 0,
    is_open: false,
};

/// A walk from each class up, the deepest first. Classes that lead up to one another get one rank.
#[derive(Drop)]
struct Walk<'a> {
    places: HashMap<&'a [u8], usize>,
    nodes: Vec<Node>,
    /// The classes that have no rank yet, as they were met.
    open: Vec<usize>,
    /// The classes on the way, each with how many of its names were looked at.
    way: Vec<(usize, usize)>,
    met: usize,
    last: usize,
    ranks: HashMap<&'a [u8], usize>,
}

/// The name at a place among those after `extends` and `implements`.
fn super_at(c: &ClassDecl, at: usize) -> Option<&Name> {
    match &c.parent {
        None => c.interfaces.get(at),
        Some(parent) => {
            if at == 0 {
                Some(parent)
            } else {
                c.interfaces.get(at - 1)
            }
        }
    }
}

impl<'a> Walk<'a> {
    fn new(alloc: Global, classes: &[&'a ClassDecl]) -> Result<Walk<'a>, AllocError> {
        let mut places = HashMap::new(alloc);
        let mut nodes = Vec::new(alloc);
        for (at, c) in classes.iter().enumerate() {
            places.insert(c.name.text.as_slice(), at)?;
            nodes.push(UNMET)?;
        }
        Ok(Walk {
            places,
            nodes,
            open: Vec::new(alloc),
            way: Vec::new(alloc),
            met: 0,
            last: 0,
            ranks: HashMap::new(alloc),
        })
    }

    fn node(&self, at: usize) -> Node {
        self.nodes.get(at).copied().unwrap_or(UNMET)
    }

    fn set(&mut self, at: usize, node: Node) {
        if let Some(place) = self.nodes.get_mut(at) {
            *place = node;
        }
    }

    /// A class that is met for the first time.
    fn meet(&mut self, at: usize) -> Result<(), AllocError> {
        self.met = self.met.saturating_add(1);
        let met = self.met;
        self.set(
            at,
            Node {
                order: met,
                low: met,
                is_open: true,
            },
        );
        self.open.push(at)?;
        Ok(())
    }

    /// A class leads up to one that was met at this time.
    fn lower(&mut self, at: usize, low: usize) {
        let mut node = self.node(at);
        if low < node.low {
            node.low = low;
            self.set(at, node);
        }
    }

    /// The next name of a class.
    fn look(&mut self, at: usize, name: &Name) -> Result<(), AllocError> {
        let Some(to) = self.places.get(&name.text.as_slice()).copied() else {
            return Ok(());
        };
        let node = self.node(to);
        if node.order == 0 {
            self.way.push((to, 0))?;
        } else if node.is_open {
            self.lower(at, node.order);
        }
        Ok(())
    }

    /// Gives a rank to the class and to all that are open behind it.
    fn close(&mut self, classes: &[&'a ClassDecl], at: usize) -> Result<(), AllocError> {
        self.last = self.last.saturating_add(1);
        for _ in 0..self.open.len() {
            let Some(top) = self.open.pop() else {
                return Ok(());
            };
            let mut node = self.node(top);
            node.is_open = false;
            self.set(top, node);
            if let Some(c) = classes.get(top) {
                self.ranks.insert(c.name.text.as_slice(), self.last)?;
            }
            if top == at {
                return Ok(());
            }
        }
        Ok(())
    }

    /// A class whose names were all looked at.
    fn leave(&mut self, classes: &[&'a ClassDecl], at: usize) -> Result<(), AllocError> {
        let node = self.node(at);
        if node.low == node.order {
            self.close(classes, at)?;
        }
        if let Some((below, _)) = self.way.last().copied() {
            self.lower(below, node.low);
        }
        Ok(())
    }

    /// One step of the walk.
    fn step(
        &mut self,
        classes: &[&'a ClassDecl],
        at: usize,
        seen: usize,
    ) -> Result<(), AllocError> {
        let Some(c) = classes.get(at) else {
            return Ok(());
        };
        if seen == 0 && self.node(at).order == 0 {
            self.meet(at)?;
        }
        match super_at(c, seen) {
            Some(name) => {
                self.way.push((at, seen.saturating_add(1)))?;
                self.look(at, name)
            }
            None => self.leave(classes, at),
        }
    }

    /// The walk from one class.
    fn from(&mut self, classes: &[&'a ClassDecl], root: usize) -> Result<(), AllocError> {
        if self.node(root).order != 0 {
            return Ok(());
        }
        self.way.push((root, 0))?;
        for _ in 0..u64::MAX {
            let Some((at, seen)) = self.way.pop() else {
                return Ok(());
            };
            self.step(classes, at, seen)?;
        }
        Ok(())
    }
}

/// The ranks, by name. Each is at least 1.
pub(crate) fn ranks_of<'a>(
    alloc: Global,
    classes: &[&'a ClassDecl],
) -> Result<HashMap<&'a [u8], usize>, AllocError> {
    let mut walk = Walk::new(alloc, classes)?;
    for root in 0..classes.len() {
        walk.from(classes, root)?;
    }
    Ok(walk.ranks)
}
