// The statements of the lines that are complete.
ghost use Rattle.std.specs.Prelude.{◌≡◌, ◌+◌, ◌<◌, ℕ, List, [], ◌∷◌, length, Err, IfOk, MatchResult};
ghost use Rattle.asm86.specs.Reader.{IsListed, ListsLine, ListsMore, ReadsNumbered};
ghost use Rattle.asm86.specs.Stream.{has_end};
ghost use Rattle.asm86.specs.declared.text_fault.TextFault.TheVariants.{Memory};

use crate::order::Order;
use crate::text_fault::TextFault;
use asm86_line_reader::{LineFault, read_line};
use asm86_line_types::{Line86, Stmt86, TextRule};
use std::alloc::{AllocError, Global};

/// The most statements that are listed, since a text of fewer than 2^28 can be assembled. One more is answered with want of
/// memory, whatever memory there is.
const MOST_STATEMENTS: usize = 0x0FFF_FFFF;

/// The statements so far with the numbers of their lines, the order that they are in, and the number of lines. After a
/// fault it is of no use.
#[derive(Drop)]
pub struct Listing {
    alloc: Global,
    pub lines: Vec<Line86>,
    order: Order,
    number: u32,
}

impl Listing {
    /// No lines.
    pub fn new(alloc: Global) -> Result<Listing, AllocError>
        ensures listed { IfOk result IsListed }
        ensures lines { IfOk result (λ l. l.lines.items ≡ []) }
        ensures number { IfOk result (λ l. l.number ≡ 0) }
    {
        Ok(Listing {
            alloc,
            lines: Vec::new(alloc),
            order: Order::new(alloc)?,
            number: 0,
        })
    }

    /// Whether END has come.
    pub fn is_ended(&self) -> bool
        ensures { IsListed self.now → result ≡ has_end self.now.lines.items }
    {
        self.order.is_ended()
    }

    // The number of the next line. Of line 2^32 want of memory is answered, since a `u32` has no room for its number.
    fn next_number(&self) -> Result<u32, TextFault>
        ensures { MatchResult result (λ n. n ≡ self.now.number + 1) (λ f. f ≡ Memory) }
    {
        self.number.checked_add(1).ok_or(TextFault::Memory)
    }

    /// Why the next line is refused where it has more than 255 bytes.
    pub fn refuse_long(&self) -> TextFault
        ensures { (line : List ℕ) → 255 < length line → ListsLine line self.now self.now (Err result) }
    {
        match self.next_number() {
            Ok(number) => TextFault::Line(number, TextRule::M1),
            Err(fault) => fault,
        }
    }

    /// Adds the statements of the next line.
    pub fn read(&mut self, line: &[u8]) -> Result<(), TextFault>
        requires { IsListed self.old }
        ensures { ListsLine line.now self.old self.new result }
    {
        let number = self.next_number()?;
        let found = read_numbered(self.alloc, number, line)?;
        self.add(number, &found)?;
        self.number = number;
        Ok(())
    }

    // Adds statements of the line of a number.
    fn add(&mut self, number: u32, stmts: &[Stmt86]) -> Result<(), TextFault>
        requires { IsListed self.old }
        ensures { ListsMore number stmts.now self.old self.new result }
    {
        for stmt in stmts {
            self.push(number, *stmt)?;
        }
        Ok(())
    }

    // Adds a statement of the line of a number.
    fn push(&mut self, number: u32, stmt: Stmt86) -> Result<(), TextFault>
        requires { IsListed self.old }
        ensures { ListsMore number (stmt ∷ []) self.old self.new result }
    {
        if !self.order.pass(stmt) {
            return Err(TextFault::Line(number, TextRule::M5));
        }
        if self.lines.len() == MOST_STATEMENTS {
            return Err(TextFault::Memory);
        }
        self.lines.push(Line86 { line: number, stmt })?;
        Ok(())
    }
}

// The statements of the line of a number.
fn read_numbered(alloc: Global, number: u32, line: &[u8]) -> Result<Vec<Stmt86>, TextFault>
    ensures { ReadsNumbered number line.now result }
{
    match read_line(alloc, line) {
        Ok(found) => Ok(found),
        Err(fault) => match fault {
            LineFault::Rule(rule) => Err(TextFault::Line(number, rule)),
            LineFault::Memory => Err(TextFault::Memory),
        },
    }
}
