// A commented text, piece by piece.
ghost use Rattle.std.specs.Prelude.{◌≡◌, ◌+◌, ◌<◌, ◌≤◌, [], ◌∷◌, ◌++◌, length, true, false};
ghost use Rattle.templates.specs.Style.{Style, styled};
ghost use Rattle.commented_text.specs.Commented.{comment_line, Commented};

use crate::groups::group_size;
use crate::lines::{next_line, source_of};
use asm80_types::{Placed, Program80};
use asm86_line_types::{Line86, write_line};
use host_files::{Piece, Producer};

/// How many lines a text has before the group of its first instruction: CSEG and the prologue.
const OPENING: usize = 8;

/// The most bytes of a line of the source in the text, since a line of ASM-86 has at most 255, the semicolon among them.
const MOST_COMMENT: usize = 254;

/// A commented text as far as it is yet to be written.
#[derive(Drop)]
pub struct CommentedText<'a> {
    // the instructions whose groups have not begun
    ahead: &'a [Placed],
    // the lines of the program's text that are yet to be written
    lines: &'a [Line86],
    // how many of these belong to what has begun: the opening, or a group
    begun: usize,
    // the bytes of the source's lines that are yet to stand
    source: &'a [u8],
    // up to which line of the source they stand before the group that has begun
    stood: u32,
    // how many of these are due before anything else
    due: u32,
}

// Puts a line of the source.
fn put_comment(piece: &mut Piece, line: &[u8])
    requires { length piece.old + 512 ≤ 4096 }
    ensures { piece.new ≡ piece.old ++ comment_line line.now }
{
    if line.is_empty() {
        piece.push(b"\r\n");
        return;
    }
    piece.push(b";");
    piece.push(&line[..line.len().min(MOST_COMMENT)]);
    piece.push(b"\r\n");
}

impl<'a> CommentedText<'a> {
    ghost use Rattle.commented_text.specs.Lines.{lines_of};
    ghost use Rattle.commented_text.specs.Left.{left_of, turns_of};

    /// The commented text of a program, the lines of its text, and the bytes of its source.
    pub fn new(program: &'a Program80, lines: &'a [Line86], source: &'a [u8]) -> CommentedText<'a>
        ensures { (s : Style) → lines.now ≡ styled s program.now → Commented source.now program.now lines.now (left_of result) }
    {
        CommentedText {
            ahead: program.instrs(),
            lines,
            begun: OPENING,
            source: source_of(source),
            stood: 0,
            due: 0,
        }
    }

    // Puts a line of the source that is due, if there is one.
    fn put_due(&mut self, piece: &mut Piece)
        requires room { length piece.old + 512 ≤ 4096 }
        requires due { 0 < self.old.due }
        ensures bytes { piece.new ++ left_of self.new ≡ piece.old ++ left_of self.old }
        ensures turn { turns_of self.new < turns_of self.old }
    {
        match next_line(self.source) {
            Some((line, later)) => {
                put_comment(piece, line);
                self.source = later;
                self.due -= 1;
            }
            None => self.due = 0,
        }
    }

    // Puts a line of what has begun, if there is one.
    fn put_begun(&mut self, piece: &mut Piece)
        requires room { length piece.old + 512 ≤ 4096 }
        requires due { self.old.due ≡ 0 }
        requires begun { 0 < self.old.begun }
        ensures bytes { piece.new ++ left_of self.new ≡ piece.old ++ left_of self.old }
        ensures turn { turns_of self.new < turns_of self.old }
    {
        match self.lines.split_first() {
            Some((line, later)) => {
                piece.push(write_line(line.stmt).as_slice());
                self.lines = later;
                self.begun -= 1;
            }
            None => self.begun = 0,
        }
    }

    // Begins the group of the next instruction.
    fn begin(&mut self, placed: &Placed, later: &'a [Placed])
        requires due { self.old.due ≡ 0 }
        requires begun { self.old.begun ≡ 0 }
        requires ahead { self.old.ahead.now ≡ placed.now ∷ later.now }
        ensures bytes { left_of self.new ≡ left_of self.old }
        ensures turn { turns_of self.new < turns_of self.old }
    {
        self.due = placed.line.saturating_sub(self.stood);
        self.stood = self.stood.max(placed.line);
        self.begun = group_size(placed.instr, self.lines);
        self.ahead = later;
    }

    // Puts the next of what is left after the last group: the lines of the source, and then those of the text.
    fn put_last(&mut self, piece: &mut Piece) -> bool
        requires room { length piece.old + 512 ≤ 4096 }
        requires due { self.old.due ≡ 0 }
        requires begun { self.old.begun ≡ 0 }
        requires ahead { self.old.ahead.now ≡ [] }
        ensures bytes { piece.new ++ left_of self.new ≡ piece.old ++ left_of self.old }
        ensures turn { result ≡ true → turns_of self.new < turns_of self.old }
        ensures end { result ≡ false → left_of self.new ≡ [] }
    {
        match next_line(self.source) {
            Some((line, rest)) => {
                put_comment(piece, line);
                self.source = rest;
                true
            }
            None => self.put_line(piece),
        }
    }

    // Puts the next line of the text, where no line of the source is left and no instruction.
    fn put_line(&mut self, piece: &mut Piece) -> bool
        requires room { length piece.old + 512 ≤ 4096 }
        requires due { self.old.due ≡ 0 }
        requires begun { self.old.begun ≡ 0 }
        requires ahead { self.old.ahead.now ≡ [] }
        requires source { lines_of self.old.source.now ≡ [] }
        ensures bytes { piece.new ++ left_of self.new ≡ piece.old ++ left_of self.old }
        ensures turn { result ≡ true → turns_of self.new < turns_of self.old }
        ensures end { result ≡ false → left_of self.new ≡ [] }
    {
        match self.lines.split_first() {
            Some((line, later)) => {
                piece.push(write_line(line.stmt).as_slice());
                self.lines = later;
                true
            }
            None => false,
        }
    }
}

impl Producer for CommentedText<'_> {
    ghost use Rattle.commented_text.specs.Left.{left_of, turns_of};

    ghost left = { left_of };

    ghost turns = { turns_of };

    fn produce(&mut self, piece: &mut Piece) -> bool {
        if self.due > 0 {
            self.put_due(piece);
        } else if self.begun > 0 {
            self.put_begun(piece);
        } else if let Some((placed, later)) = self.ahead.split_first() {
            self.begin(placed, later);
        } else {
            return self.put_last(piece);
        }
        true
    }
}
