// The reader of 8080 source in Zilog's spelling: the words of the "Z80 CPU User Manual" (Zilog UM0080) for the instructions of the 8080,
// between the labels, numbers, expressions and directives of Intel's. `Zilog` is the notation, which says what a statement in these words
// is in Intel's; `ZLines` is the `LineReader` of it.
//
// Proved, for every stream and every way to cut it into pieces: `ZLines` gives exactly the statements that the stream has by `zilog_reading`,
// or its first faulty line with the rule (the clauses of `LineReader` in `asm80_text`, for `Zilog`). `Zilog` answers as the definitions say:
// which words are operations, which are reserved besides, and which statement, if any, the tokens after an operation spell
// (`Notation for Zilog`); each row of the manual's tables is looked up by the number of operands (`bare_row`, `unary_row`, `binary_row`), and
// an operand is of at most one class. A law beside: the spelling is coherent (`spelling_is_coherent`), so tokens spell one statement alone,
// each statement is well formed and its values are numbers below 65,536. That the rows say what the manual says is read and tested (the rows
// of `cases_asm`), not proved.
#![tactic(auto)]

mod class;
mod instruction;
mod operand;
mod table;
mod zilog;

pub use zilog::{ZLines, Zilog};
