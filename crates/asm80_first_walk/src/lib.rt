// The first pass of the assembler: the symbol table, the address of each statement, and the first fault of labels and directives.
//
// Proved: `walk` goes through the statements of a source up to END and answers, exactly as the definition does (`Walks`), the first fault
// of labels, EQU, SET, ORG, DS, IF, ENDIF and END with its line and rule, or the statements that are taken, each with its address and
// operation, and all names with what they stand for at the end. Beside this only want of memory is answered. Law `operations_are_words`:
// the operations are the words that the reader of a line takes for operations. `Names` answers what each name stands for (`meaning`) and
// how it was defined (`kind`), and `define` defines a name exactly as the definition does: a new name last, a name of SET in its place,
// none that clashes or is the 8,193rd. `number_of`, `has_register`, `has_unknown`, `divides_by_zero`, `place_alone`, `meaning_of` and the
// same of operands (`operand_number` and so on) are the definitions of the values of expressions: 16 bits that wrap, shifts by 16 or more
// give 0, a divisor of 0 gives nothing.
#![tactic(auto)]

mod arithmetic;
mod directives;
mod first_walk;
mod ifs;
mod names;
mod operand;
mod operations;
mod scope;
mod size;
mod values;
mod walked;
mod walker;

pub use first_walk::walk;
pub use names::Names;
pub use operand::{
    has_place_inside, is_no_value, operand_divides_by_zero, operand_has_unknown, operand_number,
    operand_place,
};
pub use operations::{operation_of, operations_are_words};
pub use scope::Scope;
pub use size::size_of;
pub use values::{divides_by_zero, has_register, has_unknown, meaning_of, number_of, place_alone};
pub use walked::{AsmFault, Taken, Walked};
