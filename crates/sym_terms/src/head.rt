// Terms, and what they are made of.

use cells::{Part, Place};
use i80::Op;
use xlt_pool::Id;

/// A term of a `Terms`: the id of its node.
#[derive(Clone, Copy, PartialEq, Eq)]
pub struct Term(pub(crate) Id);

/// What a term is made of: its operation, with its operands, which are terms of the same `Terms`.
#[derive(Clone, Copy)]
pub enum Head {
    Num(u16),
    /// What a part held at the start.
    Start(Part),
    StartSp,
    /// The byte that the k-th load brought, counted from 0.
    Loaded8(u16),
    Loaded16(u16),
    /// An operation on two bytes and a carry.
    Alu(Op, Term, Term, Term),
    /// A flag that an operation leaves.
    Flag(Part, Term),
    Sum16(Term, Term),
    High(Term),
    Low(Term),
    /// The high and the low byte of a word.
    Join(Term, Term),
    /// The byte of S, Z, AC, P and CY.
    FlagByte(Term, Term, Term, Term, Term),
    /// The bit of a byte that stands for a flag.
    Bit(Term, Part),
    /// A byte rotated by 1 with a carry; 0 is RLC, 1 RRC, 2 RAL, 3 RAR.
    Turn(u16, Term, Term),
    /// A word rotated right by 1, this carry coming in.
    Turned(Term),
    /// A decimal adjustment of a byte with AC and CY.
    Adjust(Term, Term, Term),
    /// The high half of a code address, or the low one.
    Code(Place, bool),
    Unknown,
}
