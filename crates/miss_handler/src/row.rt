// The checks of a call site.
ghost use Rattle.std.specs.Prelude.{◌≤◌};

use program::{ClassId, MethodId, Target};

/// A class, and where a call on it goes.
#[derive(Clone, Copy, Debug, PartialEq, Eq)]
pub struct Check {
    pub class: ClassId,
    pub target: Target,
}

const NO_CHECK: Check = Check {
    class: ClassId(0),
    target: Target::Method(MethodId(0)),
};

/// At most four checks, in the order in which they were added. Contracts see them as the list `checks_of`.
#[derive(Clone, Copy)]
pub struct Row {
    checks: [Check; 4],
    len: u32,
    ghost few: { len ≤ 4 },
}

impl Row {
    ghost use Rattle.std.specs.Prelude.{◌≡◌, ◌<◌, ◌++◌, [], ◌∷◌, length, option_map, slice_get, Some};
    ghost use Rattle.miss_handler.specs.States.{check, checks_of, has, target_in};

    pub fn empty() -> Row
        ensures { checks_of result ≡ [] }
    {
        Row {
            checks: [NO_CHECK; 4],
            len: 0,
        }
    }

    /// The row with a check behind the others.
    pub fn added(self, c: ClassId, t: Target) -> Row
        requires { length (checks_of self) < 4 }
        ensures { checks_of result ≡ checks_of self ++ check c.0 t ∷ [] }
    {
        let mut row = self;
        row.checks[row.len as usize] = Check {
            class: c,
            target: t,
        };
        row.len += 1;
        row
    }

    pub fn len(&self) -> u32
        ensures { result ≡ length (checks_of self.now) }
    {
        self.len
    }

    fn check_at(&self, i: u32) -> Check
        requires { i < length (checks_of self.now) }
        ensures { slice_get (checks_of self.now) i ≡ Some result }
    {
        self.checks[i as usize]
    }

    pub fn class_at(&self, i: u32) -> ClassId
        requires { i < length (checks_of self.now) }
        ensures { option_map (λ k. k.class) (slice_get (checks_of self.now) i) ≡ Some result }
    {
        self.check_at(i).class
    }

    pub fn target_at(&self, i: u32) -> Target
        requires { i < length (checks_of self.now) }
        ensures { option_map (λ k. k.target) (slice_get (checks_of self.now) i) ≡ Some result }
    {
        self.check_at(i).target
    }

    /// Whether a check of the class is among them.
    pub fn has(&self, c: ClassId) -> bool
        ensures { result ≡ has (checks_of self.now) c.0 }
    {
        self.checks[..self.len as usize]
            .iter()
            .any(|k| k.class.0 == c.0)
    }

    /// The target of the class's check, if there is one.
    pub fn target_of(&self, c: ClassId) -> Option<Target>
        ensures { result ≡ target_in (checks_of self.now) c.0 }
    {
        self.checks[..self.len as usize]
            .iter()
            .find(|k| k.class.0 == c.0)
            .map(|k| k.target)
    }
}
