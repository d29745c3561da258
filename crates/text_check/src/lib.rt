// The checker of a whole text: its opening, the runtime, the data, and each block (translation validation of a program).
//
// Proved: `validate_in` answers exactly what is found of a text (`IsFinding`): all blocks shown and how many, or the first reason why not,
// in the order of the opening, the runtime, the data, and the blocks, ascending. It takes no memory; after `Shown` the work's outcomes are
// those of the last block and of its walk (`HoldsLast`). `lacks` answers the first of the opening, the runtime and the data that a text
// lacks (`Lacks`), or that it has them all (`HasFrame`). `has_opening`, `has_runtime` and `data_stand` answer exactly whether a text begins
// with its program's opening, whether the statements of the runtime stand in it one after the other, and whether each data cell of the
// program stands for the image's cell at its address (`cell_stands` of one cell, by `byte_at`, found by halves). Laws: `findings_are_one` (of a program and lines just one thing is
// found) and `lines_are_coded` (the numbers in lines that the program holds are in the ranges of their types).
#![tactic(auto)]

mod coded;
mod data;
mod finding;
mod frame;
mod laws;
mod validation;

pub use block_check::{Index86, Reason, Work};
pub use coded::lines_are_coded;
pub use data::{byte_at, cell_stands};
pub use finding::Finding;
pub use laws::findings_are_one;
pub use validation::{finding_of, lacks, validate_in};
