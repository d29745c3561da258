// What a pool keeps, and how it is named.

/// What is kept: a mark of what it is, and what it is made of. A pool only compares nodes.
#[derive(Clone, Copy, PartialEq, Eq)]
pub struct Node {
    pub op: u16,
    pub num: u16,
    pub a: u32,
    pub b: u32,
    pub c: u32,
}

/// A node's place in its pool, counted from 0.
#[derive(Clone, Copy, PartialEq, Eq)]
pub struct Id(pub u32);

/// How many nodes a pool had.
#[derive(Clone, Copy)]
pub struct Mark(pub u32);
