// What is asked between the two words of a site.
use ds_base::{Gate, Moment};

/// What a thread asks after it advanced a data word, and before the target word is finished.
pub trait Between {
    fn between(&self);
}

/// A gate, with the number of the entry that it is asked for.
pub struct Held<'a, G: Gate> {
    pub gate: &'a G,
    pub entry: u32,
}

impl<'a, G: Gate> Between for Held<'a, G> {
    fn between(&self) {
        self.gate.at(self.entry, Moment::BetweenWords);
    }
}
