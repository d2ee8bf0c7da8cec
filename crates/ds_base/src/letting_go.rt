//! Values that are let go by a call.

/// Lets a value go. Where an early return would drop an owned tree in place, each variant of it is proved there; a call of this moves it, and the drop is proved once.
pub fn let_go<T: Drop>(x: T) {
    let _x = x;
}
