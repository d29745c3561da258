// Micro-operations.

use cells::{Part, Place};
use i80::{Op, Pair, Reg};
use i86::{Ptr, Reg8, Reg16, Rotate};

/// A register that holds a byte: one of the 8080, one of the 8086, which has those of the 8080 where the register map puts them, or one
/// of two that instructions use on the way.
#[derive(Clone, Copy)]
pub enum ByteSlot {
    Of80(Reg),
    Of86(Reg8),
    T,
    U,
}

/// A register that holds a flag.
#[derive(Clone, Copy)]
pub enum FlagSlot {
    S,
    Z,
    Ac,
    P,
    Cy,
}

/// Flags that are given a value together.
#[derive(Clone, Copy)]
pub enum FlagSet {
    All,
    /// S, Z, AC and P.
    AllButCy,
}

/// A register that holds a word, and that instructions use on the way.
#[derive(Clone, Copy)]
pub enum WordSlot {
    V,
    W,
    X,
}

/// A word of a processor: two byte registers, or SP or SI.
#[derive(Clone, Copy)]
pub enum Wide {
    Of80(Pair),
    Of86(Reg16),
}

/// What a byte register may be given.
#[derive(Clone, Copy)]
pub enum ByteValue {
    Of(ByteSlot),
    Number(u8),
    /// What a register held at the start, if this is known.
    Start(bool, Part),
    /// The high half of a code address, or the low one.
    Code(Place, bool),
    /// The high half of a word, or the low one.
    Half(WordSlot, bool),
    /// What the last operation gave.
    Result,
    /// What A holds after an operation: what it gave, or, after CMP, what A held.
    After(Op),
    /// What the last rotation gave.
    Turned,
    /// What the next load brings.
    Loaded,
}

/// What a word register may be given.
#[derive(Clone, Copy)]
pub enum WordValue {
    Of(Wide),
    /// The address in BX or SI.
    Pointed(Ptr),
    Number(u16),
    /// A high and a low byte.
    Join(ByteSlot, ByteSlot),
    /// What SP held at the start.
    StartSp,
    /// A word rotated right by 1 through CY.
    Turned,
    /// What the next load brings.
    Loaded,
    Unknown,
}

/// What a flag may be given.
#[derive(Clone, Copy)]
pub enum FlagValue {
    /// 0 or 1.
    Number(bool),
    /// What it held at the start, if this is known.
    Start(bool),
    /// What the last operation left of it.
    OfResult,
    /// What the last rotation left of CY.
    OfTurned,
    /// Its bit in a byte.
    InByte(ByteSlot),
    /// The carry that was rotated into a word, where the word is known to be one such.
    BroughtBack(WordSlot),
    Unknown,
}

/// A micro-operation.
#[derive(Clone, Copy)]
pub enum Micro {
    Byte(ByteSlot, ByteValue),
    Word(WordSlot, WordValue),
    Flag(FlagSlot, FlagValue),
    Flags(FlagSet, FlagValue),
    /// A word of a processor is given what a word register holds.
    Put(Wide, WordSlot),
    /// The first is given the sum of the other two.
    Sum(WordSlot, WordSlot, WordSlot),
    /// The byte of the five flags.
    FlagByte(ByteSlot),
    /// CY is given the other value.
    Complement,
    /// An operation on two bytes: ADC and SBB take CY, and CMP subtracts.
    Operate(Op, ByteSlot, ByteSlot),
    /// The decimal adjustment of A.
    Adjust,
    /// A byte is rotated by 1: by RCL and RCR through CY.
    Turn(Rotate, ByteSlot),
    /// A load or a store at the address that a word register holds.
    Load8(WordSlot),
    Load16(WordSlot),
    Store8(WordSlot, ByteSlot),
    Store16(WordSlot, WordSlot),
}
