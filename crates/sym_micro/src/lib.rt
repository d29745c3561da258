// Micro-operations over the ids of shared terms, and one machine that performs them, whose registers hold terms: each instruction of either
// processor is a short list of them, so that what touches the pool is proved once. The lists of what both processors do alike stand here,
// on a register of either (`arithmetic`, `moves`); the others are in `sym_step`.
//
// Proved: `perform` leaves the machine that the list leaves over terms, as the 8080 sees it and as the 8086 does; at most as many nodes
// join as the operations weigh, each id that was given keeps its term, and there is no answer only where no node has room (`GoesOn`).
// `begin` leaves the start of a run, with the parts that are kept.
#![tactic(auto)]

mod arithmetic;
mod micro;
mod moves;
mod outcome;
mod performing;
mod run;
mod starting;
mod values;
mod ways;

pub use arithmetic::{
    add_number, add_word, adjust, clear, complement, complement_carry, count_memory,
    count_register, operate, operate_memory, operate_number, rotate, set_carry,
};
pub use micro::{
    ByteSlot, ByteValue, FlagSet, FlagSlot, FlagValue, Micro, Wide, WordSlot, WordValue,
};
pub use moves::{
    load_byte, load_word, move_byte, move_code, move_word, push, store_byte, store_number,
    store_word,
};
pub use outcome::{Action, Exit, Held, Way};
pub use performing::{perform, perform_each};
pub use run::Run;
pub use starting::begin;
pub use ways::return_way;
