// The commands that list something of a source's program: `flags` (the INX, DCX and DAD, each with the flags that a text for it has to save
// there) and `leaves` (the places at which a run leaves the profile, as far as one block tells it).
//
// Proved: what such a command gives by its status is said once, of any list (`list`, for whatever meets the trait `Listed`), as of a command
// that makes something of one file and writes nothing (`MakeGives`, `MakeCompletes` for `list_kind`): the lines of the program of which the
// whole bytes of IN are the source are said whole with status 0, or their first bytes with 4 after a write of the host that failed and 5
// after one that wanted memory; else the line of the stop with its status: 1 with the line and the rule where IN is no source, 3, 14, 5 by
// their causes. Status 0 comes exactly where IN is a source, with the lines of its program, of which there is one list, where no call of
// the host fails and memory suffices. No file changes (`files`). All memory is taken before the first line is said; no clause carries that.
//
// `flags` (`flags_kind`): for each INX, DCX and DAD in ascending order its address, its line and exactly those of S, Z, AC and P that are
// needed after it, by the definition of needs alone (`AreSaveLines` over `AreSaves`, which is over paths); then how many save any, and how
// many there are.
//
// `leaves` (`leaves_kind`): for each place of the list `leaving` its address, its line, its rule and whether a run only may leave there; then
// how many there are, and how many instructions the program has (`AreDepartureLines`). Clause `left` (`HasDepartures`): after status 0 no
// run of the tagged 8080 passes a place that was said (`PlaceIsLeft`), and the places ascend.
#![tactic(auto)]

mod departures;
mod list;
mod saves;
mod savings;

pub use departures::leaves;
pub use saves::flags;
pub use savings::{Saving, saved_among, savings_of};
