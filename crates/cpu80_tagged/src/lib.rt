// The tagged 8080: as a definition, one step of it as code, and the machine with a program.
//
// The definition (`specs/State`, `Memory`, `Effect`, `Call`, `Step`, `Start`): small-step semantics over abstract values (tags), which says
// what the profile is, that is, which behaviours of a program are defined: its states, the effect of each instruction, one step with the
// rules P1 to P12 that it may break (`step80`), and runs of a program (`run80`). From the Intel 8080 Assembly Language Programming Manual
// and the CP/M 2.2 Operating System Manual.
//
// The step, one function for each family of instructions: what the instruction does to a draft of the state, and the place that comes next.
// Proved: `Draft::effect` is the row of the definition for every instruction (clause `row`), with the first rule that it breaks and a draft
// that is then as before; `Draft::step` is `step80` (clause `answer`), and tells what the step asks (clause `asking`); neither writes
// memory, but leaves the write to be made (clause `memory`).
//
// The machine: its state, its steps, what it asks of the system and of ports, and the replies that it takes. Proved: `Cpu80` is the
// definition: `Cpu80::new` is its start (`start80`), `step` each step (`step80`), `asked` what it asks (a call, an IN or an OUT), `reply`
// each reply; a refused reply changes nothing; `held` shows its state, also while it asks. Law `calls_give_runs`: any calls of `step` and
// `reply` give the run of its program over the replies that it took.
#![tactic(auto)]

pub mod area;
pub mod arithmetic;
pub mod draft;
pub mod effect;
pub mod goto;
mod memory;
pub mod moves;
pub mod numbers;
pub mod port;
mod processor;
pub mod registers;
mod replies;
mod runs;
pub mod sight;
pub mod stack;
mod start;
pub mod step;
pub mod system;
pub mod turn;

pub use processor::{Cpu80, Step80};
pub use runs::calls_give_runs;
