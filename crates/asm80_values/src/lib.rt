// The assembler: the program that statements stand for, or the first rule of names, values and layout that they break.
//
// Proved: `assemble` gives, for an allowed top of the program area, the program of the statements by the definition (`assembled`:
// `IsAssembled`), or the first rule that they break with its line (`refused`: `IsRefused`): of the first walk, else of the second, else of
// the layout in the order S3, S6, S7, S1, S2, S4, S5. Beside this only want of memory is answered. The program is all that a source gives
// (`IsProgram`): an instruction starts at 100H, at each target but 0 and 5, and at each code address of an LXI or of the data; no cell
// belongs to two; all are from 100H up and below the top less 2; operands are in their ranges; a data cell is a number, or half of a code
// address with the other half beside it. Law `source_has_one_outcome`: bytes, with a top, are the source of one program at most, are
// refused at one line for one rule at most, and never both. Below it: `items_of` (operands of the second walk), `layout_fault` (the first
// breach of the layout) and `program_of_items` (the program of the items in the order of their addresses). Of an operation with its
// operands `form_of` gives the first of the rules V5, V1, V4, V3 that they break, exactly where they break it, and else what they make
// (`GivesForm`): the instruction, if it is of the profile, or the cells of DB and DW, with whether an operand breaks S1, S2, S4 or S5; the
// bytes, words and addresses in them are in their ranges. `kinds_of` is the table of the operands that each operation takes (CP/M 2.2
// Operating System Manual, the assembler, "Operand field"; Intel 8080 Assembly Language Programming Manual, chapter 2).
//
// What there is of a source, in each spelling (`IsCoherent`). `statements_of_a_stream_are_in_range`: the statements of a stream have words
// for numbers and bytes for characters. `statements_without_a_refusal_are_a_program`: such statements that break no rule are a program
// (clause `program`), and a stream of them is the source of one (clause `source`). `each_stream_has_an_outcome`: it cannot be that a stream
// has neither statements nor a first fault. `each_source_has_an_outcome`: it cannot be that bytes are neither the source of a program nor
// refused by a rule. So these definitions leave no bytes out. No other crate stands on the last two.
#![tactic(auto)]

mod assembly;
mod data;
mod fault;
mod form;
mod instruction;
mod item;
mod kinds;
mod laws;
mod layout;
mod profile;
mod program;
mod registers;
mod rules;
mod second_walk;
mod setting;

pub use asm80_first_walk::AsmFault;
pub use asm80_source_def::AsmRule;
pub use asm80_types::Program80;
pub use assembly::assemble;
pub use fault::FormFault;
pub use form::{Data, Form, Instruction, form_of};
pub use kinds::kinds_of;
pub use laws::{
    each_source_has_an_outcome, each_stream_has_an_outcome, source_has_one_outcome,
    statements_of_a_stream_are_in_range, statements_without_a_refusal_are_a_program,
};
pub use setting::Setting;
