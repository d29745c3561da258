// The 8080 by one name: the tagged machine (`Cpu80`), the untagged one (`Plain80`), whose registers and memory hold plain bytes, as a
// definition and step by step, and the laws that tie the two.
//
// The definition of the untagged 8080 (`specs/State`, `Flags`, `Effect`, `Call`, `Step`, `Start`): small-step semantics over plain bytes, in
// which a list of choices (an oracle) gives each result that is unknown: its states, one step (`step_untagged`) and runs of a program
// (`run_untagged`). From the Intel 8080 Assembly Language Programming Manual and the CP/M 2.2 Operating System Manual.
//
// The machine takes its instructions from any `Fetch80`. Proved, over every fetch, every fill of memory and every choice of what is
// unknown: `Untagged80` is the untagged 8080 of the definition: each step (`step_untagged`, clauses `step` and `told`), what it asks, each
// reply. `Plain80` is that machine at a program: its start, and `StepPlain::Stopped` exactly where no instruction starts at the address that
// comes next, unless that address is 0 and was reached by the return of a jump to 5, or where a call has no shape. Law `calls_give_runs`:
// any calls on a machine give the run of its definition, for every fetch and every state at the start.
//
// Law `plain_follows`, of every program, start page, fill of memory, list of choices, list of replies of bytes and number of turns: where
// the run of the tagged 8080 has stayed in the profile, the run of the untagged 8080 has the same dialogue and has not stopped
// (`PlainFollows`). A simulation of abstract values by plain bytes. Law `fetches_follow`: so has the run of any 8080 that takes the
// program's instructions as long as their cells are unchanged, over any memory that has the program's data (`FetchFollows`).
#![tactic(auto)]

mod arithmetic;
mod effect;
mod fetch;
mod flags;
mod gotos;
mod laws;
mod machine;
mod memory;
mod moves;
mod plain;
mod processor;
mod registers;
mod stack;
mod start;
mod system;

pub use cpu80_tagged::{Cpu80, Step80};
pub use fetch::Fetch80;
pub use laws::{calls_give_runs, fetches_follow, plain_follows};
pub use machine::{Untagged80, UntaggedStep};
pub use memory::Memory;
pub use plain::{Plain80, StepPlain};
pub use processor::Processor;
pub use start::{datum_or, start_processor};
