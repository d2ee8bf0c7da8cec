// Values.

/// A value of a heap: a string goes by its index among the heap's texts, and an object, a list or an Invocation by its address.
#[derive(Clone, Copy, Debug, PartialEq, Eq)]
pub enum Value {
    Null,
    Bool(bool),
    Int(i64),
    Str(usize),
    Ref(usize),
}
