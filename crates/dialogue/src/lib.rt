// What a program asks of the BDOS and of ports, and what it may be answered: the requests, replies and events whose sequence is the
// dialogue of a run (the trace of its observable events), and the page that a program starts with. The table of calls is that of the CP/M
// 2.2 manual.
//
// Proved: `shape_of` gives exactly the shape of a system call or the rule that it breaks; `request_of` gives exactly the memory that the
// shape reads, and a lawful request; `fits`, `fits_event`, `dma_after` and `answer_of` are the table's; `Page::of_tail` gives the start
// page of a command tail, and None exactly for a tail of more than 126 bytes or with a byte outside 20H to 7EH; `choice_bit`, `choice_byte`
// and `join` are a bit and a byte of a choice, from which a machine takes what is left undefined, and a word of bytes. Law
// `who_sees_more_asks_the_same`: a call that one machine may make by what it knows of D and E and sees of memory, another machine that
// knows and sees all this and more makes too, with the same request; the tagged 8080 sees less than the 8086. Runs by turns (small steps,
// `specs/Run`), what the calls of a machine answer and leave (`specs/Calls`) and `SameDialogue` are definitions; that turns add up, and
// that any calls of a machine are turns of its run, are lemmas (`proofs/Turns`, `proofs/Called`).
#![tactic(auto)]

mod blocks;
mod choice;
mod laws;
mod replies;
mod request;
mod shape;
mod start_page;
mod table;
mod words;

pub use blocks::{Block, Blocks, Bytes};
pub use choice::{choice_bit, choice_byte};
pub use laws::who_sees_more_asks_the_same;
pub use replies::{answer_of, dma_after, fits, fits_event};
pub use request::{ArgWord, Event, Range, Reply, Request, Shape, View};
pub use shape::{request_of, shape_of};
pub use start_page::Page;
pub use table::{AnswerKind, AnswerRule, Argument, Extent, Row, row_of};
pub use words::join;
