// Code, written from its end.
ghost use Rattle.std.specs.Prelude.{◌≡◌, ◌+◌, [], ◌∷◌, ◌++◌, OnOk, IfOk, length};
ghost use Rattle.code_writer.specs.Constants.{literal_of, held, number_in, with_literal};
ghost use Rattle.code_writer.specs.Out.{put, put_constant, with_room, patched, unwritten, started, turned};

use crate::finish::{literals_of, placed};
use crate::key::{Key, note};
use code_unit::Instr;
use indexmap::IndexSet;
use program::Literal;
use sqlite_items::Items;
use std::alloc::{AllocError, Global};
use std::marker::Model;

/// The code of a unit so far, its last instruction first, and the constants so far. A jump tells how many instructions
/// stand from its target to the end: what is behind it is written before it, so each jump forward knows its target.
#[derive(Drop)]
pub struct Emitter<'a> {
    code: Vec<Instr>,
    constants: IndexSet<Key<'a>>,
    /// The most arguments of a construction in the code.
    room: u32,
}

impl<'a> Model for Emitter<'a> {
    ghost use Rattle.code_writer.specs.Out.{Out};
    ghost use Rattle.code_writer.specs.Constants.{held};

    ghost Value = { Out };

    ghost view = { λ e. record {
      code = e.code.items;
      table = held e.constants;
      room = e.room;
    } };
}

impl<'a> Emitter<'a> {
    /// Nothing is written, and there is no constant.
    pub fn new(alloc: Global) -> Emitter<'a>
        ensures { result ≡ unwritten }
    {
        Emitter {
            code: Vec::new(alloc),
            constants: IndexSet::new(alloc),
            room: 0,
        }
    }

    /// Begins a unit. The constants stay.
    pub fn begin(&mut self)
        ensures { self.new ≡ started self.old }
    {
        self.code.clear();
        self.room = 0;
    }

    /// The most arguments of a construction in the code.
    pub fn room(&self) -> u32
        ensures { result ≡ self.now.room }
    {
        self.room
    }

    /// The instructions from the first one on, with the places of their jumps.
    pub fn instructions(&self, alloc: Global) -> Result<Items<Instr>, AllocError>
        ensures { IfOk result (λ code. code ≡ turned (length self.now.code) self.now.code) }
    {
        let count = self.behind()?;
        let mut code = Items::new(alloc);
        for i in (0..self.code.len()).rev() {
            code.push(placed(count, self.code[i]))?;
        }
        Ok(code)
    }

    /// The constants.
    pub fn constants(&self, alloc: Global) -> Result<Vec<Literal>, AllocError>
        ensures { IfOk result (λ constants. constants.items ≡ self.now.table) }
    {
        literals_of(alloc, self.constants.as_slice())
    }

    /// Writes an instruction before those that are there.
    pub fn put(&mut self, instr: Instr) -> Result<(), AllocError>
        ensures { OnOk result (self.new ≡ put instr self.old) }
    {
        self.code.push(instr)?;
        Ok(())
    }

    /// Writes the push of a literal.
    pub fn put_constant(&mut self, literal: Key<'a>) -> Result<(), AllocError>
        ensures { OnOk result (self.new ≡ put_constant (literal_of literal.entry) self.old) }
    {
        let number = note(&mut self.constants, literal)?;
        self.put(Instr::Const(number))
    }

    /// How many instructions there are.
    pub fn behind(&self) -> Result<u32, AllocError>
        ensures { IfOk result (λ n. n ≡ length self.now.code) }
    {
        let n = self.code.len();
        if n < 4294967296 {
            Ok(n as u32)
        } else {
            Err(AllocError)
        }
    }

    /// Takes note of a construction with so many arguments.
    pub fn note_room(&mut self, count: u32)
        ensures { self.new ≡ with_room count self.old }
    {
        if self.room < count {
            self.room = count;
        }
    }

    /// Turns an instruction into a jump, for a loop's last one, whose target is written behind it.
    pub fn patch(&mut self, at: u32, behind: u32)
        ensures { self.new ≡ patched at behind self.old }
    {
        if (at as usize) < self.code.len() {
            self.code[at as usize] = Instr::Jump(behind);
        }
    }
}
