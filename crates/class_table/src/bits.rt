// Sets of small numbers as bits of words.
ghost use Rattle.std.specs.Prelude.{◌≡◌, ◌<◌, ◌/◌, ◌||◌, nat_eq, length};
ghost use Rattle.class_table.specs.Rows.{holds};

pub fn contains(words: &[u64], d: usize) -> bool
    requires { d / 64 < length words.now }
    ensures { result ≡ holds words.now d }
{
    (words[d / 64] >> (d % 64)) & 1 == 1
}

pub fn add(words: &mut Vec<u64>, d: usize)
    requires { d / 64 < length words.old.items }
    ensures same { length words.new.items ≡ length words.old.items }
    ensures bits { (k : _) → holds words.new.items k ≡ (nat_eq d k || holds words.old.items k) }
{
    words[d / 64] |= 1 << (d % 64);
}

/// Adds what another set of as many words has.
pub fn add_all(words: &mut Vec<u64>, more: &[u64])
    requires { length words.old.items ≡ length more.now }
    ensures same { length words.new.items ≡ length words.old.items }
    ensures bits { (k : _) → holds words.new.items k ≡ (holds words.old.items k || holds more.now k) }
{
    for i in 0..more.len() {
        words[i] |= more[i];
    }
}
