// Definitions alone: what statements assemble to. The operations and their operands, the values of expressions, the two walks (passes) of
// the assembler, the layout, and the program or the first refusal that comes of them: `IsAssembled`, `IsRefused`, `IsSource` and
// `IsNoSource`. From the CP/M 2.2 Operating System Manual, the assembler, and the Intel 8080 Assembly Language Programming Manual. No
// theorem of its own: what is proved of it stands in `asm80_values`.
#![tactic(auto)]

mod meaning;
mod operation;
mod rule;

pub use meaning::{Meaning, NameKind};
pub use operation::{Kind, Operation};
pub use rule::AsmRule;
