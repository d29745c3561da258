// The commands that run something: `run80` (a source on the tagged 8080), `run86` (an ASM-86 text on the 8086, by a choice of what the
// manuals leave undefined), `runhex` (the cells of a HEX file on an 8080 that fetches bytes, by such a choice) and `both` (the program of a
// source on the tagged 8080, and then the image of its lean text on the 8086, over devices that the same bytes make, up to 16n + 16
// instructions where the 8080 ran n), each over a small BDOS and ports. What they have in common: the files of a run's devices, the run of
// each machine over them, what its end is to a command, the disk that is kept, and what is said last.
//
// Proved: `read_supplies` reads those files (`IsSupplied`), or tells why not (`SupplyStops`). `devices_of` makes the devices, or tells the
// first byte at which the disk's file cannot go on (`HasDisk`, `DiskStops`). `run_program`, `run_image` and `run_cells` make the run of the
// definition (`RunComesTo`), or a fault of the host cuts it off, with its cause (`IsRunCutOff`). `leave_runs` takes the memory of the last
// line, and then writes the disk where the end of the run keeps it (`RunsAreLeft`, `LeaveStops`); `close_work` says the last line, with its
// status (`IsClosed`). What a command of this kind gives by its status is said once, of any such command (`WorkGives`), and so is the one
// thing that it comes to (`RunCompletes`): a command gives its `RunKind`, which has what it loads and how that runs.
//
// Clause `gives` of each is `WorkGives` for its kind of run (`work80`, `work86`, `work_hex`, `work_both`): the files of the words (source,
// text or HEX file, input, disk, port bytes) are each read to the end before a faulty line is reported; then the source, text or HEX file is
// looked at (of a text the lines and then the image; 16 comes where the bytes are no HEX file), and then the disk's file; the run came to an
// end and its dialogue was said, the disk's file was written where that end keeps it, and the last line was said; or a line of the run was
// not said, and nothing follows; or the command stops by a cause, whose line is said. A run of the 8080 that leaves the profile names the
// line of the instruction at which the machine still stands, and there is one (`IsLineOf`). The status of `both` is that of the 8080's run:
// both dialogues were said, each line after `80 ` or `86 `, and the 8080's dialogue is the first part of the 8086's (`AreBothMade`, field
// `agree`); the disk that is kept is the 8080's. No file changes but that of `--out-disk` (`files`: `DiskAlone`). Clause `completes`
// (`RunCompletes`, `BothComplete`): where no call of the host failed and every file is told and within its limit, the status is that of the
// one thing that the files' whole bytes come to, or 5 for want of memory; of `both` that of the one thing that `run80` comes to, or 13 where
// the code of the lean text is too large.
#![tactic(auto)]

mod ends;
mod finishing;
mod halt;
mod hex_inputs;
mod keeping;
mod last;
mod lean;
mod making;
mod names;
mod run_both;
mod run_hex;
mod run_source;
mod run_text;
mod running;
mod supplies;
mod text_inputs;

pub use run_both::both;
pub use run_hex::runhex;
pub use run_source::run80;
pub use run_text::run86;
