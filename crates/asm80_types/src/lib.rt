// What a source of the 8080 is read as, and what it is assembled to, below any reader.
//
// Statements and their parts: names, expressions, operands, the operations and registers that they have, the faults of lines (L1 to L8), and
// which statements can be assembled (`AreWellFormed`). `is_listed` looks a name up among words that lie by their first letters, for any
// spelling. What it is to read statements is said here too: a `Reading` relates a stream of bytes to its statements and its first faulty
// line. The trait `StatementReader` is met by any reader that is fed a stream in pieces: what it was fed (`was_fed`), that `finish` gives
// what the stream has by its reading (`outcome`), and that it has one outcome (`reading_has_one_outcome`).
//
// A program as the assembler leaves it: its instructions at addresses with their lines, its data cells, and the top of its area. Proved:
// each accessor of `Program80` reads the program that `Program80::new` was given, which is a program by `IsProgram` (this holds of every
// value of the type); `instr_at`, `line_at` and `cell_at` answer None exactly where the program has nothing; `taken` gives the places to
// which a return or PCHL may go (`taken_places`). The accessors search by halves; how long that takes is not claimed.
#![tactic(auto)]

mod arg;
mod expr;
mod fault;
mod name;
mod program;
mod reader;
mod stmt;
mod taken;
mod words;

pub use arg::{Arg, Args, Bytes};
pub use expr::{Expr, Two};
pub use fault::{LineRule, ReadFault};
pub use name::Name80;
pub use program::{Placed, Program80};
pub use reader::StatementReader;
pub use stmt::Stmt80;
pub use words::{WordsByLetter, is_listed, is_operation, is_register};
