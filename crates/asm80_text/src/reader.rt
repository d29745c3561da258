//! A reader of lines that is fed a stream in pieces.

ghost use Rattle.std.specs.Prelude.{◌≡◌, ◌≢◌, ◌<◌, ◌≤◌, ◌+◌, ◌∷◌, [], ◌++◌, ◌⊎◌, ℕ, List, Option, None, Some, Err, IfOk, IfSome, MatchResult, length, true, false};
ghost use Rattle.asm80_types.specs.declared.fault.ReadFault.{ReadFault};
ghost use Rattle.asm80_types.specs.declared.fault.ReadFault.TheVariants.{Memory, Syntax};
ghost use Rattle.asm80_types.specs.declared.fault.LineRule.{LineRule};
ghost use Rattle.asm80_types.specs.Tree.{Statement};
ghost use Rattle.asm80_types.specs.WellFormed.{AreWellFormed};
ghost use Rattle.asm80_text.specs.Stream.{HoldsFault, StreamGives, plain_len};
ghost use Rattle.asm80_types.specs.Reading.{Finishes, HasOneOutcome};
ghost use Rattle.asm80_text.specs.Reader.{Adds, Advances, After, Agrees, EndsLine, EndsStream, answer_of, rule_of_long};

use crate::intel::Intel;
use crate::line::{MOST_LINES, read_line};
use crate::{Notation, Token};
use asm80_types::{LineRule, ReadFault, StatementReader, Stmt80};
use base::{HeldLine, without_cr};
use std::alloc::{AllocError, Global};
use std::marker::{Model, PhantomData};
use std::mem;

/// The byte that ends a source.
const END_OF_FILE: u8 = 0x1a;

/// How many statements there is room for from the start.
const FIRST_ROOM: usize = 16;

/// A reader of the statements of a stream. Of the stream's bytes it keeps only the line that is not complete yet.
#[derive(Drop)]
pub struct LineReader<N: Notation> {
    alloc: Global,
    statements: Vec<Stmt80>,
    held: HeldLine,
    /// Room for the tokens of a line.
    tokens: Vec<Token>,
    number: u32,
    is_closed: bool,
    fault: Option<ReadFault>,
    notation: PhantomData<N>,
}

/// A reader of sources in Intel's spelling.
pub type Lines = LineReader<Intel>;

impl<N: Notation> Model for LineReader<N> {
    ghost use Rattle.std.specs.Prelude.{◌≤◌};
    ghost use Rattle.asm80_text.specs.Reader.{Reader};

    ghost Value = { Reader };

    ghost use Rattle.asm80_types.specs.contracts.expr.Expr as e;
    ghost use Rattle.std.specs.Coded.{codes};
    ghost use Rattle.asm80_types.specs.WellFormed.{AreWellFormed};

    ghost coded = { Prim.hlevel (codes, e.the_row.coded) };

    ghost view = { λ a. record { statements = a.statements.items; held = a.held; number = a.number; is_closed = a.is_closed; fault = a.fault } };

    ghost invariant = { λ a. (a.number ≤ 32768) × AreWellFormed a.statements.items };
}

impl<N: Notation> LineReader<N> {
    /// A reader of a stream of which nothing has come yet.
    pub fn new(alloc: Global) -> Result<LineReader<N>, AllocError>
        ensures { IfOk result (After N.spelling []) }
    {
        Ok(LineReader {
            alloc,
            statements: Vec::with_capacity(alloc, FIRST_ROOM)?,
            held: HeldLine::new(),
            tokens: Vec::new(alloc),
            number: 0,
            is_closed: false,
            fault: None,
            notation: PhantomData,
        })
    }

    /// Takes the next piece of the stream.
    pub fn feed(&mut self, piece: &[u8]) -> Result<(), ReadFault>
        // The stream so far grows by the piece.
        ensures grows { self.new.fault ≢ Some Memory → (stream : List ℕ) → After N.spelling stream self.old → After N.spelling (stream ++ piece.now) self.new }
        ensures answer { result ≡ answer_of self.new.fault }

        // Syntax comes exactly where a faulty line is complete in the stream so far.
        ensures faulty { (stream : List ℕ) (n : ℕ) (rule : LineRule) → After N.spelling stream self.old → result ≡ Err (Syntax n rule) → HoldsFault N.spelling (stream ++ piece.now) n rule }
        ensures found { (stream : List ℕ) (n : ℕ) (rule : LineRule) → After N.spelling stream self.old → HoldsFault N.spelling (stream ++ piece.now) n rule → (result ≡ Err (Syntax n rule)) ⊎ (result ≡ Err Memory) }

        // A fault stands, and behind the byte 1AH nothing is read.
        ensures stands { self.old.fault ≢ None → self.new ≡ self.old }
        ensures closed { self.old.is_closed ≡ true → self.new ≡ self.old }
    {
        N::spelling_is_coherent();
        let mut rest = piece;
        while !rest.is_empty() {
            rest = self.advance(rest);
        }
        self.answer()
    }

    // Takes a whole line at the front of the bytes, where a line begins there, and else the next byte; the bytes after it.
    fn advance<'a>(&mut self, bytes: &'a [u8]) -> &'a [u8]
        requires { 0 < length bytes.now }
        ensures grows { Advances N.spelling bytes.now result.now self.old self.new }
        ensures shorter { length result.now < length bytes.now }
        ensures stands { self.old.fault ≢ None → self.new ≡ self.old }
        ensures closed { self.old.is_closed ≡ true → self.new ≡ self.old }
    {
        if self.is_at_line() {
            let count = plain_len(bytes);
            if count < bytes.len() && bytes[count] == b'\n' {
                self.read(without_cr(&bytes[..count]));
                return &bytes[count + 1..];
            }
        }
        self.step(bytes[0]);
        &bytes[1..]
    }

    // Whether a line begins with the next byte.
    fn is_at_line(&self) -> bool
        ensures { result ≡ true → (self.now.fault ≡ None) × (self.now.is_closed ≡ false) × (self.now.held ≡ Some []) }
    {
        self.fault.is_none() && !self.is_closed && matches!(self.held.line(), Some([]))
    }

    // The fault that there is.
    fn answer(&self) -> Result<(), ReadFault>
        ensures { result ≡ answer_of self.now.fault }
    {
        match self.fault {
            Some(fault) => Err(fault),
            None => Ok(()),
        }
    }

    /// The statements of the whole stream.
    pub fn finish(self) -> Result<Vec<Stmt80>, ReadFault>
        // Syntax comes exactly where the stream has a fault, with its first one.
        ensures outcome { (stream : List ℕ) → After N.spelling stream self → Finishes (StreamGives N.spelling) stream result }
        ensures only { (stream : List ℕ) (statements : List Statement) (fault : Option ReadFault) → After N.spelling stream self → StreamGives N.spelling stream statements fault → Agrees result statements fault }

        // A fault stands, and once the byte 1AH has come there is an answer.
        ensures stands { IfSome self.fault (λ fault. result ≡ Err fault) }
        ensures closed { self.fault ≡ None → self.is_closed ≡ true → MatchResult result (λ v. v.items ≡ self.statements) (λ _. ⊥) }

        // The statements can be assembled.
        ensures well_formed { IfOk result (λ v. AreWellFormed v.items) }
    {
        N::spelling_is_coherent();
        let mut reader = self;
        reader.step(END_OF_FILE);
        match reader.fault {
            Some(fault) => Err(fault),
            None => Ok(reader.statements),
        }
    }

    // Takes the next byte of the stream, unless there is a fault.
    fn step(&mut self, b: u8)
        ensures grows { self.new.fault ≢ Some Memory → (stream : List ℕ) → After N.spelling stream self.old → After N.spelling (stream ++ b ∷ []) self.new }
        ensures stands { self.old.fault ≢ None → self.new ≡ self.old }
        ensures closed { self.old.is_closed ≡ true → self.new ≡ self.old }
    {
        if self.fault.is_some() || self.is_closed {
            return;
        }
        if b == b'\n' {
            self.end_line();
        } else if b == END_OF_FILE {
            self.end_stream();
        } else {
            self.held.push(b);
        }
    }

    // The line that is held is complete by a LF.
    fn end_line(&mut self)
        requires fault { self.old.fault ≡ None }
        requires open_yet { self.old.is_closed ≡ false }
        ensures { EndsLine N.spelling self.old self.new }
    {
        let held = mem::replace(&mut self.held, HeldLine::new());
        match held.line() {
            Some(line) => self.read(without_cr(line)),
            None => self.refuse_long(),
        }
    }

    // The stream ends.
    fn end_stream(&mut self)
        requires fault { self.old.fault ≡ None }
        requires open_yet { self.old.is_closed ≡ false }
        ensures { EndsStream N.spelling self.old self.new }
    {
        self.is_closed = true;
        let held = mem::replace(&mut self.held, HeldLine::new());
        match held.line() {
            Some([]) => {}
            Some(line) => self.read(line),
            None => self.refuse_long(),
        }
    }

    // Refuses a line that was too long to be held.
    fn refuse_long(&mut self)
        requires { self.old.fault ≡ None }
        ensures { self.new ≡ record self.old { fault = Some (Syntax (self.old.number + 1) (rule_of_long (self.old.number + 1))) } }
    {
        let number = self.number + 1;
        let rule = if number > MOST_LINES {
            LineRule::L8
        } else {
            LineRule::L7
        };
        self.fault = Some(ReadFault::Syntax(number, rule));
    }

    // Adds the statements of a line.
    fn read(&mut self, line: &[u8])
        requires fault { self.old.fault ≡ None }
        requires held { self.old.held ≡ Some [] }
        ensures { Adds N.spelling line.now self.old self.new }
    {
        let number = self.number + 1;
        let (tokens, found) = (&mut self.tokens, &mut self.statements);
        match read_line::<N>(self.alloc, number, line, tokens, found) {
            Ok(()) => self.number = number,
            Err(fault) => self.fault = Some(fault),
        }
    }
}

impl<N: Notation> StatementReader for LineReader<N> {
    ghost use Rattle.asm80_text.specs.Stream.{StreamGives};
    ghost use Rattle.asm80_text.specs.Reader.{After};

    ghost reading = { StreamGives N.spelling };

    ghost was_fed = { λ reader stream. After N.spelling stream reader };

    fn new(alloc: Global) -> Result<LineReader<N>, AllocError> {
        LineReader::<N>::new(alloc)
    }

    fn feed(&mut self, piece: &[u8]) -> Result<(), ReadFault> {
        LineReader::<N>::feed(self, piece)
    }

    fn finish(self) -> Result<Vec<Stmt80>, ReadFault> {
        LineReader::<N>::finish(self)
    }

    fn reading_has_one_outcome() {
        stream_has_one_outcome::<N>();
    }
}

// How many bytes at the front are neither LF nor 1AH.
fn plain_len(bytes: &[u8]) -> usize
    ensures value { result ≡ plain_len bytes.now }
    ensures within { result ≤ length bytes.now }
{
    bytes
        .iter()
        .take_while(|b| **b != b'\n' && **b != END_OF_FILE)
        .count()
}

/// In each spelling a stream has at most one outcome: its statements, or its first fault with the statements before it.
pub fn stream_has_one_outcome<N: Notation>()
    ensures { HasOneOutcome (StreamGives N.spelling) }
{
    N::spelling_is_coherent();
}
