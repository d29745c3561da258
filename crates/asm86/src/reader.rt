// A reader of a text that is fed a stream in pieces.
ghost use Rattle.std.specs.Prelude.{◌≡◌, ◌≢◌, ◌<◌, ◌≤◌, ◌^◌, ◌∷◌, [], ◌++◌, ◌⊎◌, ℕ, List, Option, None, Some, Result, Err, IfOk, IfSome, MatchResult, true, false, length, is_some, ◌||◌};
ghost use Rattle.asm86_line_types.specs.declared.line.Line86.{Line86};
ghost use Rattle.asm86_line_types.specs.declared.line.TextRule.{TextRule};
ghost use Rattle.asm86_line_types.specs.Image.{statements};
ghost use Rattle.asm86_line_types.specs.Order.{at_start, in_order};
ghost use Rattle.asm86.specs.declared.text_fault.TextFault.{TextFault};
ghost use Rattle.asm86.specs.declared.text_fault.TextFault.TheVariants.{Line, Memory};
ghost use Rattle.base.specs.Cut.{without_cr};
ghost use Rattle.base.specs.Held.{held_with_byte, HoldsLine};
ghost use Rattle.asm86.specs.Reader.{Advances, AfterText, AfterAll, AgreesWithText, FinishesText, ReadsLine, ReadsRest, answer_of_fault};
ghost use Rattle.asm86.specs.Stream.{HoldsTextFault, TextGives, has_end, line_len};

use crate::listing::Listing;
use crate::text_fault::TextFault;
use asm86_line_types::{Line86, TextRule};
use base::{HeldLine, without_cr};
use std::alloc::{AllocError, Global};
use std::marker::Model;
use std::mem;

/// A reader of the statements of a text; lines behind END are not read. Of the text's bytes it keeps only the line that is not
/// complete yet. It takes a text of any number of bytes with fewer than 2^28 statements and 2^32 lines.
#[derive(Drop)]
pub struct Text86 {
    listing: Listing,
    held: HeldLine,
    fault: Option<TextFault>,
}

impl Model for Text86 {
    ghost use Rattle.std.specs.Prelude.{◌≡◌, None};
    ghost use Rattle.asm86.specs.Reader.{TextReader, IsListed};

    ghost Value = { TextReader };

    ghost view = { λ a. record { lines = a.listing.lines.items; number = a.listing.number; held = a.held; fault = a.fault } };

    ghost invariant = { λ a. a.fault ≡ None → IsListed a.listing };
}

impl Text86 {
    /// A reader of a text of which nothing has come yet.
    pub fn new(alloc: Global) -> Result<Text86, AllocError>
        ensures { IfOk result (AfterText []) }
    {
        Ok(Text86 {
            listing: Listing::new(alloc)?,
            held: HeldLine::new(),
            fault: None,
        })
    }

    /// Takes the next piece of the text, which may be cut at any byte. `Line` tells the first line with M1, M2 or M5; a line is
    /// complete once its line feed has come. After a fault each later call answers the same fault.
    pub fn feed(&mut self, piece: &[u8]) -> Result<(), TextFault>
        // The text so far grows by the piece.
        ensures grows { self.new.fault ≢ Some Memory → (stream : List ℕ) → AfterText stream self.old → AfterText (stream ++ piece.now) self.new }
        ensures answer { result ≡ answer_of_fault self.new.fault }

        // Line comes exactly where a faulty line, not after END, is complete in the text so far.
        ensures faulty { (stream : List ℕ) (n : ℕ) (rule : TextRule) → AfterText stream self.old → result ≡ Err (Line n rule) → HoldsTextFault (stream ++ piece.now) n rule }
        ensures found { (stream : List ℕ) (n : ℕ) (rule : TextRule) → AfterText stream self.old → HoldsTextFault (stream ++ piece.now) n rule → (result ≡ Err (Line n rule)) ⊎ (result ≡ Err Memory) }

        // A fault stands, and behind END nothing is read.
        ensures stands { self.old.fault ≢ None → self.new ≡ self.old }
        ensures ended { has_end self.old.lines ≡ true → self.new ≡ self.old }
    {
        let mut rest = piece;
        while !rest.is_empty() {
            rest = self.advance(rest);
        }
        self.answer()
    }

    // Takes a whole line at the front of the bytes, where a line begins there, and else the next byte; the bytes after it.
    fn advance<'a>(&mut self, bytes: &'a [u8]) -> &'a [u8]
        requires { 0 < length bytes.now }
        ensures grows { Advances bytes.now result.now self.old self.new }
        ensures shorter { length result.now < length bytes.now }
        ensures stands { self.old.fault ≢ None → self.new ≡ self.old }
        ensures ended { has_end self.old.lines ≡ true → self.new ≡ self.old }
    {
        if self.is_at_line() {
            let count = line_len(bytes);
            if count < bytes.len() && bytes[count] == b'\n' {
                self.read(without_cr(&bytes[..count]));
                return &bytes[count + 1..];
            }
        }
        self.step(bytes[0]);
        &bytes[1..]
    }

    // Whether a line begins with the next byte.
    fn is_at_line(&self) -> bool
        ensures { result ≡ true → ((is_some self.now.fault || has_end self.now.lines) ≡ false) × (self.now.held ≡ Some []) }
    {
        match self.held.line() {
            Some(line) => line.is_empty() && !self.is_done(),
            None => false,
        }
    }

    // The fault that there is.
    fn answer(&self) -> Result<(), TextFault>
        ensures { result ≡ answer_of_fault self.now.fault }
    {
        match self.fault {
            Some(fault) => Err(fault),
            None => Ok(()),
        }
    }

    /// The statements of the whole text, with the numbers of their lines from 1. `Line` tells the first line with M1, M2 or M5,
    /// the last line too if no line feed ended it; else line 0 and M6 where no END came.
    pub fn finish(self) -> Result<Vec<Line86>, TextFault>
        // Line comes exactly where the text has a fault, with its first one.
        ensures outcome { (stream : List ℕ) → AfterText stream self → FinishesText stream result }
        ensures only { (stream : List ℕ) (outcome : Result (List Line86) (ℕ × TextRule)) → AfterText stream self → TextGives stream outcome → AgreesWithText result outcome }

        // A fault stands, and once END has come there is an answer.
        ensures stands { IfSome self.fault (λ fault. result ≡ Err fault) }
        ensures ended { self.fault ≡ None → has_end self.lines ≡ true → MatchResult result (λ v. v.items ≡ self.lines) (λ _. ⊥) }

        // The statements may be assembled.
        ensures in_order { IfOk result (λ v. in_order at_start (statements v.items) ≡ true) }
        ensures few { IfOk result (λ v. length v.items < 2 ^ 28) }
    {
        let mut reader = self;
        reader.end();
        reader.outcome()
    }

    // What is answered where the text has ended.
    fn outcome(self) -> Result<Vec<Line86>, TextFault>
        ensures value { (text : List ℕ) → (self.fault ≢ Some Memory → AfterAll text self) → FinishesText text result }
        ensures stands { IfSome self.fault (λ fault. result ≡ Err fault) }
        ensures ended { self.fault ≡ None → has_end self.lines ≡ true → MatchResult result (λ v. v.items ≡ self.lines) (λ _. ⊥) }
        ensures in_order { IfOk result (λ v. in_order at_start (statements v.items) ≡ true) }
        ensures few { IfOk result (λ v. length v.items < 2 ^ 28) }
    {
        if let Some(fault) = self.fault {
            return Err(fault);
        }
        if !self.listing.is_ended() {
            return Err(TextFault::Line(0, TextRule::M6));
        }
        Ok(self.listing.lines)
    }

    // Takes the next byte of the text, unless there is a fault or END has come.
    fn step(&mut self, b: u8)
        ensures grows { self.new.fault ≢ Some Memory → (stream : List ℕ) → AfterText stream self.old → AfterText (stream ++ b ∷ []) self.new }
        ensures stands { self.old.fault ≢ None → self.new ≡ self.old }
        ensures ended { has_end self.old.lines ≡ true → self.new ≡ self.old }
    {
        if self.is_done() {
            return;
        }
        if b == b'\n' {
            self.end_line();
        } else {
            self.hold(b);
        }
    }

    // Whether nothing more is read.
    fn is_done(&self) -> bool
        ensures { result ≡ (is_some self.now.fault || has_end self.now.lines) }
    {
        self.fault.is_some() || self.listing.is_ended()
    }

    fn hold(&mut self, b: u8)
        ensures { self.new ≡ record self.old { held = held_with_byte self.old.held b } }
    {
        self.held.push(b);
    }

    // The line that is held is complete by a LF.
    fn end_line(&mut self)
        requires { self.old.fault ≡ None }
        ensures { (line : List ℕ) → HoldsLine self.old.held line → ReadsLine (without_cr line) self.old self.new }
    {
        let held = mem::replace(&mut self.held, HeldLine::new());
        match held.line() {
            Some(line) => self.read(without_cr(line)),
            None => self.refuse_long(),
        }
    }

    // The text ends.
    fn end(&mut self)
        ensures whole { self.new.fault ≢ Some Memory → (stream : List ℕ) → AfterText stream self.old → AfterAll stream self.new }
        ensures stands { self.old.fault ≢ None → self.new ≡ self.old }
        ensures ended { has_end self.old.lines ≡ true → self.new ≡ self.old }
    {
        if self.is_done() {
            return;
        }
        self.end_rest();
    }

    // The line that is held is the last, and no LF ended it.
    fn end_rest(&mut self)
        requires { self.old.fault ≡ None }
        ensures { (rest : List ℕ) → HoldsLine self.old.held rest → ReadsRest rest self.old self.new }
    {
        let held = mem::replace(&mut self.held, HeldLine::new());
        match held.line() {
            Some(line) => {
                if !line.is_empty() {
                    self.read(line);
                }
            }
            None => self.refuse_long(),
        }
    }

    // Refuses a line that was too long to be held.
    fn refuse_long(&mut self)
        requires { self.old.fault ≡ None }
        ensures { (line : List ℕ) → 255 < length line → ReadsLine line self.old self.new }
    {
        self.fault = Some(self.listing.refuse_long());
    }

    // Adds the statements of a line.
    fn read(&mut self, line: &[u8])
        requires fault { self.old.fault ≡ None }
        requires held { self.old.held ≡ Some [] }
        ensures { ReadsLine line.now self.old self.new }
    {
        if let Err(fault) = self.listing.read(line) {
            self.fault = Some(fault);
        }
    }
}

// How many bytes at the front stand before a LF.
fn line_len(bytes: &[u8]) -> usize
    ensures value { result ≡ line_len bytes.now }
    ensures within { result ≤ length bytes.now }
{
    let mut count = 0;
    for b in bytes {
        if *b == b'\n' {
            return count;
        }
        count += 1;
    }
    count
}
