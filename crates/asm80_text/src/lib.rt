// The reader of 8080 source: a stream of bytes in any pieces becomes the statements of its lines, by the tokens of a line (the lexer) and
// their expressions (the parser), as the CP/M 2.2 Operating System Manual has the grammar of the assembler. `LineReader` reads any spelling
// that meets `Notation`, which is a `Spelling` as code: which words are operations, which are reserved besides, which tokens may follow an
// operation; it asks for the law that what is read by it can be assembled, and in one way (`IsCoherent`). `Lines` is the reader for Intel's
// spelling, which is `Intel`.
//
// Proved, for every stream and every way to cut it into pieces: `LineReader::feed` and `LineReader::finish` give exactly the statements of
// the line grammar, or a syntax fault exactly where the stream has one (clauses `faulty`, `found`, `outcome`, `only`), with the number and
// the rule of the first faulty line; `feed` tells it as soon as that line is complete, and the reader stays failed (`stands`). After the
// byte 1AH nothing is read (`closed`). What `finish` gives is well formed, so it can be assembled. Laws: the words of a statement have one
// tree (`statement_has_one_tree`) and a stream has one outcome (`stream_has_one_outcome`). Of the stream only the unfinished line is kept,
// by the form of the code. `expression` gives the expression that the front of tokens spells, up to where it cannot go on (`Spells`,
// `Ends`), or where it breaks the grammar; and tokens have one tree (law `expression_has_one_tree`).
//
// Of the lexer, for each spelling: `tokens_of` gives the tokens of a line up to its first fault, and that fault (`Lexes`), each token such
// as the spelling has (`IsLawful`); `number_at`, `string_at` and `word_at` are the definitions of numbers, strings and words;
// `as_operation` is the word that a token is where a statement has its operation. Law: a line has one list of tokens
// (`line_has_one_reading`).
#![tactic(auto)]

mod fault;
mod intel;
mod letters;
mod line;
mod notation;
mod numbers;
mod parse;
mod parser;
mod parts;
mod reader;
mod strings;
mod token;
mod tokens;
mod words;

pub use asm80_types::{Arg, Args, Bytes, Expr, LineRule, Name80, ReadFault, Stmt80, Two};
pub use fault::{ParseFault, ScanFault};
pub use intel::Intel;
pub use notation::Notation;
pub use parse::{operand_list, statement_has_one_tree};
pub use parser::{expression, expression_has_one_tree};
pub use reader::{LineReader, Lines, stream_has_one_outcome};
pub use token::Token;
pub use tokens::{line_has_one_reading, tokens_of};
pub use words::as_operation;
