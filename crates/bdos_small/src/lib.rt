// What answers the events of a program: a small BDOS, which is a disk in drive A and a console, and the bytes of its ports (CP/M 2.2
// Operating System Manual).
//
// Proved of the disk (`disk`, `name`, `file`, `record`, and its file: `reading`, `spelling`, `kept`): a disk (`IsDisk`) has at most 64 files
// and 8,000 records, its files in ascending order of their names. `Disk::read` gives the disk whose file the bytes are, or the first byte at
// which they cannot become the file of any disk, or their number where they end early (`IsDiskFaultOf`); `Disk::write` gives the file of a
// disk. Law `disks_read_back`: a disk file has one disk, and the file of a disk is never refused. Each other call of `Disk` is the
// definition's: what it finds, adds, removes, renames and writes; after want of memory the disk is as before.
//
// Proved of the answers: `Bdos::answer` gives exactly the answer of the definition to every lawful request, and leaves exactly the disk, the
// input and the search that it leaves (`small_answer`); the functions of the console are a part of it (`Console::answer` is
// `console_answer`), in which only a reply takes input and only a line (function 10) wants memory. Function 0, which is not asked, gets
// `NoDrive`. `Devices::answer` gives exactly the answer of the BDOS and of ports with these bytes to every event that may be asked
// (`event_answer`): a call is the BDOS's, an IN takes the next port byte and is `InputEnded` where none is left, an OUT is answered 0; the
// end gets none. Of all of them: a reply fits what was asked (clause `fits`), only a reply changes or takes anything (`changes`, `takes`),
// and after want of memory all is as before (`memory`).
#![tactic(auto)]

mod bdos;
mod console;
mod devices;
mod directory;
mod disk;
mod fault;
mod fcb;
mod file;
mod input;
mod kept;
mod line;
mod name;
mod reading;
mod record;
mod records;
mod replies;
mod spelling;

pub use bdos::Bdos;
pub use console::Answer;
pub use devices::{Devices, EventAnswer};
pub use disk::Disk;
pub use fault::DiskFault;
pub use file::File;
pub use kept::disks_read_back;
