// What several families stand on: a set of 16-bit addresses, bytes by their addresses, the line of a text that is not complete yet, and a count of steps for contracts
// on cost; and as definitions, where bytes cannot go on to be a file of a format (`CannotGoOn`), and the arithmetic that both processors
// have: sums, differences, rotations and decimal adjustment of bytes with their flags (`specs/Arithmetic`), and the 8080's operations on
// bytes (`specs/Operations`). From the Intel 8080 Assembly Language Programming Manual, "Condition bits", and the Intel 8086 Family User's
// Manual, "Flags".
//
// Proved: `AddressSet` holds the addresses that were added and no others. `ByteCells` ascends by its addresses, and a later byte replaces an
// earlier one. `HeldLine` holds the bytes of a line as they come, up to 256, and
// says so of a longer one; `without_cr` is a line without the CR at its end. `Steps` takes no bytes at run time and only `tick` changes it,
// by 1, for any ledger; a function whose steps are counted takes it as its last argument.
#![tactic(auto)]

mod addresses;
mod byte_cells;
mod held;
mod lines;
mod steps;

pub use addresses::AddressSet;
pub use byte_cells::ByteCells;
pub use held::HeldLine;
pub use lines::without_cr;
pub use steps::Steps;
