// A class with its target, as the word of a place: bits 0 to 14 are the number of the method, bit 15 says `noSuchMethod`, bits 16 to 27 are the class, and bit 32 is one. The word of an empty place is 0.
ghost use Rattle.std.specs.Prelude.{◌≡◌, ◌<◌, MatchOption};
ghost use Rattle.mega_cache.specs.Entries.{packed, field_of, method_of, IsPacked, IsEntryOf};

use program::{ClassId, MethodId, Target};

/// A class, and where calls on it go.
#[derive(Clone, Copy)]
pub struct Entry {
    pub class: ClassId,
    pub target: Target,
}

#[tactic(auto, unfolding(crate::specs::Entries::packed))]
pub fn pack(entry: Entry) -> u64
    ensures { result ≡ packed entry.class.0 entry.target }
{
    let field = match entry.target {
        Target::Method(m) => m.0 as u64,
        Target::Nsm(m) => 32768 + m.0 as u64,
    };
    (65536 + entry.class.0 as u64) * 65536 + field
}

fn target_of(field: u16) -> Target
    ensures range { method_of result < 32768 }
    ensures field { field_of result ≡ field }
{
    if field < 32768 {
        Target::Method(MethodId(field))
    } else {
        Target::Nsm(MethodId(field - 32768))
    }
}

/// None for the word of an empty place.
#[tactic(auto, unfolding(crate::specs::Entries::packed))]
pub fn unpack(word: u64) -> Option<Entry>
    requires { IsPacked word }
    ensures { MatchOption result (word ≡ 0) (IsEntryOf word) }
{
    if word == 0 {
        return None;
    }
    Some(Entry {
        class: ClassId((word / 65536 - 65536) as u16),
        target: target_of((word % 65536) as u16),
    })
}
