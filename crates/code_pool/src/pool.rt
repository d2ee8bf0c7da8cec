// The pool.
ghost use Rattle.std.specs.Prelude.{◌≡◌, ◌<◌, Some, length, slice_get};

use code_unit::Unit;
use program::{EntryId, Literal, MethodId, NativeId, SelectorId, SiteId, UnitId};
use std::marker::Model;

/// What `Const` pushes.
pub type Constant = Literal;

/// What a member does. A field goes by its place in the object.
#[derive(Clone, Copy, Debug, PartialEq, Eq)]
pub enum MethodBody {
    Native(NativeId),
    ReadField(u32),
    WriteField(u32),
    Code(UnitId),
}

/// The code of a program. Contracts see it as a `Pool`: its six lists.
#[derive(Drop)]
pub struct CodePool {
    units: Vec<Unit>,
    constants: Vec<Constant>,
    /// The unit of each function and constructor.
    statics: Vec<UnitId>,
    /// The selector of each site.
    sites: Vec<SelectorId>,
    /// The unit of each entry point.
    entries: Vec<UnitId>,
    methods: Vec<MethodBody>,
}

impl Model for CodePool {
    ghost use Rattle.code_pool.specs.Pool.{Pool};

    ghost Value = { Pool };

    ghost view = { λ p. record {
      units = p.units.items;
      constants = p.constants.items;
      statics = p.statics.items;
      sites = p.sites.items;
      entries = p.entries.items;
      methods = p.methods.items;
    } };
}

impl CodePool {
    /// Keeps these lists. It takes no memory.
    pub fn build(
        units: Vec<Unit>,
        constants: Vec<Constant>,
        statics: Vec<UnitId>,
        sites: Vec<SelectorId>,
        entries: Vec<UnitId>,
        methods: Vec<MethodBody>,
    ) -> CodePool
        ensures units { result.units ≡ units.items }
        ensures constants { result.constants ≡ constants.items }
        ensures statics { result.statics ≡ statics.items }
        ensures sites { result.sites ≡ sites.items }
        ensures entries { result.entries ≡ entries.items }
        ensures methods { result.methods ≡ methods.items }
    {
        CodePool {
            units,
            constants,
            statics,
            sites,
            entries,
            methods,
        }
    }

    pub fn unit(&self, id: UnitId) -> &Unit
        requires { id.0 < length self.now.units }
        ensures { slice_get self.now.units id.0 ≡ Some result.now }
    {
        &self.units[id.0 as usize]
    }

    pub fn constant(&self, k: u32) -> &Constant
        requires { k < length self.now.constants }
        ensures { slice_get self.now.constants k ≡ Some result.now }
    {
        &self.constants[k as usize]
    }

    /// All constants, in order.
    pub fn constants(&self) -> &[Constant]
        ensures { result.now ≡ self.now.constants }
    {
        &self.constants
    }

    /// The unit of a function or constructor.
    pub fn static_target(&self, k: u32) -> UnitId
        requires { k < length self.now.statics }
        ensures { slice_get self.now.statics k ≡ Some result }
    {
        self.statics[k as usize]
    }

    /// The selector of a site.
    pub fn site(&self, s: SiteId) -> SelectorId
        requires { s.0 < length self.now.sites }
        ensures { slice_get self.now.sites s.0 ≡ Some result }
    {
        self.sites[s.0 as usize]
    }

    /// The unit of an entry point.
    pub fn entry_unit(&self, e: EntryId) -> UnitId
        requires { e.0 < length self.now.entries }
        ensures { slice_get self.now.entries e.0 ≡ Some result }
    {
        self.entries[e.0 as usize]
    }

    /// What a member does.
    pub fn method_unit(&self, m: MethodId) -> MethodBody
        requires { m.0 < length self.now.methods }
        ensures { slice_get self.now.methods m.0 ≡ Some result }
    {
        self.methods[m.0 as usize]
    }
}
