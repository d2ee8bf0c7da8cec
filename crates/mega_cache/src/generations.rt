// Sizes and places of the generations.
ghost use Rattle.std.specs.Prelude.{◌≡◌, ◌≤◌, ◌<◌};
ghost use Rattle.mega_cache.specs.Places.{capacity, last_generation, words_up_to, window_place};

/// How many places a generation has.
pub fn capacity(generation: u8) -> u32
    requires { generation ≤ 7 }
    ensures capacity { result ≡ capacity generation }
    ensures range { (16 ≤ result) × (result ≤ 2048) }
{
    match generation {
        0 => 16,
        1 => 32,
        2 => 64,
        3 => 128,
        4 => 256,
        5 => 512,
        6 => 1024,
        _ => 2048,
    }
}

/// The first generation that has a place for each class.
#[tactic(auto, unfolding(crate::specs::Places::last_generation))]
pub fn last_generation(classes: usize) -> u8
    requires { classes ≤ 2048 }
    ensures generation { result ≡ last_generation classes }
    ensures range { result ≤ 7 }
{
    for generation in 0..7u8 {
        if classes <= capacity(generation) as usize {
            return generation;
        }
    }
    7
}

/// How many words a selector has.
pub fn words_up_to(last: u8) -> u32
    requires { last ≤ 7 }
    ensures words { result ≡ words_up_to last }
    ensures range { result ≤ 4081 }
{
    2 * capacity(last) - 15
}

/// A place of a class's window, counted from the root.
#[tactic(auto, unfolding(crate::specs::Places::window_place))]
pub fn window_place(class: u16, generation: u8, turn: u32) -> u32
    requires { (generation ≤ 7) × (turn < 8) }
    ensures { result ≡ window_place class generation turn }
{
    let size = capacity(generation);
    size - 15 + (7 * class as u32 + turn) % size
}
