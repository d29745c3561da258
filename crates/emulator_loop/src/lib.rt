// The loop that runs a machine, turn by turn, over a small BDOS and ports, and says each event of its dialogue (the trace of its observable
// events) as it comes.
//
// Proved: `converse` runs any machine that meets the trait `Emulator` over devices, for at most a number of turns, and says each event, a
// call, an IN, an OUT or the end, as its line, after a text that the caller gives. Where it answers (`run`: `SaysRun`), its answer is what
// the run over the devices comes to, and no run over them comes to anything else; all lines of the dialogue were said in order; the devices
// have left what the replies leave (`left_after`); and it tells how many instructions ran (`Ran`): the one that asks or ends counts, the
// one that left the profile does not. After a fault (`cut`: `IsCutOff`) it says which, and with its cause: a call of the host met it within
// a line, of which first bytes were said, but not all, after the lines of the events before it; or memory ran out, and whole lines of first
// events were said. No file changes (`only`).
#![tactic(auto)]

mod emulator;
mod fault;
mod lines;
mod replies;
mod running;

pub use emulator::{Emulator, Turn, Why};
pub use fault::TalkFault;
pub use running::{Conversation, RunEnd, converse};
