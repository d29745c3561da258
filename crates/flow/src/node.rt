// The nodes of the flow graph.

/// A node: the instruction that starts at an address, or the point from which control goes back to an address that was stored or
/// loaded.
#[derive(Clone, Copy)]
pub enum Node {
    Start(u16),
    Return,
}
