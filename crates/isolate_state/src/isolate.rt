// What an isolate holds.
use crate::frame::Frame;
use dart_values::{Heap, Trap, Value};
use program::Text;

/// What a run holds beside the frame that runs and its turns.
#[derive(Drop)]
pub struct Isolate {
    pub heap: Heap,
    /// The slots of each frame, and above them its operands, the oldest frame first.
    pub values: Vec<Value>,
    /// The frames that wait for a call to answer, the oldest first.
    pub callers: Vec<Frame>,
    pub globals: Vec<Value>,
    pub lines: Vec<Text>,
    /// The constants of the pool.
    pub constants: Vec<Value>,
    /// How often each site asked its cell.
    pub calls: Vec<u64>,
    /// What ended the run, where a trap did.
    pub trap: Trap,
}
