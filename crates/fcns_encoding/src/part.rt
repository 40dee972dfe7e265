// What waits until the element around it is closed.

// A part of the stack: an element that was begun, by its symbol, or a whole node, by its symbol and the number of its kids' code.
#[derive(Clone, Copy, Drop)]
pub(crate) enum Part {
    Begun(u32),
    Whole(u32, u32),
}
