// The commands that make something of one file: `cmd` (writes the CP/M-86 command file of an ASM-86 text), `cmdshow` (says how many bytes
// the groups of a CP/M-86 command file have) and `hex80` (writes the HEX file of a source's program).
//
// Proved: `write_made` writes the bytes of what was made, or tells the fault (`WriteStops`). What a command of this kind gives by its status
// is said once, of any such command (`MakeGives`), and so is the status that whole bytes have where no call of the host fails
// (`MakeCompletes`): a command gives its `MakeKind`, which has what the bytes of its file give and what is written of that. Clauses `gives`
// and `completes` of each are these, with want of memory aside; the second rests on what the proofs show of each kind, that bytes give one
// thing or are refused by one stop (`KindLaws`).
//
// `cmd` (`cmd_kind`): after status 0 OUT is the command file of the image that the whole bytes of TEXT have; else the line of the stop with
// its status, 10 and 13 where the text has no image, 3, 14, 4 and 5 by their causes; status 0 comes exactly where the text has an image.
// Clause `loads` (`HasCommandFile`): after status 0 whatever program is `Same` with that image is `Same` with what OUT loads to. All memory
// is taken before OUT is touched; no clause carries that.
//
// `cmdshow` (`cmd_show_kind`): the sizes of the groups of the command file that the whole bytes of FILE are, with status 0, which comes
// exactly where FILE is a command file; or the line of the stop with its status: 15 with the first byte at which no command file goes on so,
// 3, 14 and 5 by their causes. No file changes (`files`).
//
// `hex80` (`hex_kind`): after status 0 OUT is the HEX file that is written of the cells of the program of which the whole bytes of IN are
// the source; else the line of the stop with its status, 1 with the line and rule where IN is no source, 3, 14, 4 and 5 by their causes;
// status 0 comes exactly where IN is a source. Clause `file` (`HasHexFile`): after status 0 OUT is read as these cells, and where a run of
// the program on the tagged 8080 has stayed in the profile, their run on the 8080 that fetches bytes has said the same.
#![tactic(auto)]

mod hexing;
mod making;
mod showing;
mod writing;

pub use hexing::hex80;
pub use making::cmd;
pub use showing::cmdshow;
pub use writing::write_made;
