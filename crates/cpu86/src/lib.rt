// The 8086 as far as the texts use it: as a definition, one step as code, and the machine with an image, step by step.
//
// The definition (`specs/State`, `Flags`, `Effect`, `Call`, `Step`, `Start`): small-step semantics in which a list of choices (an oracle)
// gives each result that the manuals leave undefined: its states, the effect of each instruction, one step (`step86`), INT 224 and its
// replies, and runs of an image (`run86`). From the Intel 8086 Family User's Manual and the CP/M-86 System Guide, "BDOS calls".
//
// One step: its registers, flags and memory, and what each instruction does to them. Proved, over every choice of what the manuals leave
// undefined: `Processor::execute` is the definition's effect of every instruction, and each function below it is that of its family of
// instructions.
//
// The machine. Proved, over every such choice: `Cpu86` is the 8086 of the definition: `Cpu86::new` is the start of an image (`start86`),
// `step` each step (`step86`), `asked` what it asks, `reply` each reply; a refused reply changes nothing; `processor` shows its state, also
// while it asks. Law `calls_give_runs`: any calls of `step` and `reply` give the run of the image over the replies that it took.
#![tactic(auto)]

pub mod arithmetic;
mod cpu;
pub mod effects;
pub mod execute;
pub mod flags;
pub mod initial_memory;
mod laws;
pub mod memory;
pub mod processor;
pub mod registers;
mod start;
pub mod system;

pub use cpu::{Cpu86, Step86};
pub use laws::calls_give_runs;
pub use start::Start86;
