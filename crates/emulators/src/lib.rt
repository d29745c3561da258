// Emulators: the tagged 8080 with a program, the 8080 that fetches bytes with the cells of a HEX file, and the 8086 with an image, each over
// a small BDOS and ports.
//
// Proved: `run_80`, `run_bytes` and `run_86` are `converse` over a program on the tagged 8080, over the cells of a HEX file on the 8080 that
// fetches bytes, and over an image on the 8086, whatever reads the image's code. Law `runs_are_one`: each machine has one run over any
// devices (`HasOneRun`).
#![tactic(auto)]

mod commands;
mod laws;
mod running80;
mod running86;
mod running_bytes;

pub use commands::{run_80, run_86, run_bytes};
pub use emulator_loop::{Conversation, RunEnd, TalkFault, Why};
pub use laws::runs_are_one;
pub use running_bytes::RunningBytes;
pub use running80::Running80;
pub use running86::Running86;
