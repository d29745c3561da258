// What stands in which group of a text, told of one statement after the other.
ghost use Rattle.std.specs.Prelude.{◌≡◌, ◌≤◌};

use asm86_line_types::Stmt86;
use base::AddressSet;
use std::alloc::{AllocError, Global};

/// The address past the last cell of memory.
const CELLS: usize = 0x10000;

/// The first address that a data cell may have.
const FIRST_CELL: u16 = 0x100;

/// The group that CSEG or DSEG has begun.
#[derive(Clone, Copy, PartialEq, Eq)]
pub enum Group {
    Neither,
    Code,
    Data,
}

/// Where a reader of statements is: in which group, at which data address, with which cells filled, and whether END has
/// come. An address past memory is kept as 65,536, since all of them are alike.
#[derive(Drop)]
pub struct Order {
    group: Group,
    code_came: bool,
    data_came: bool,
    at: usize,
    filled: AddressSet,
    is_ended: bool,
    ghost most: { at ≤ 0x10000 },
}

impl Order {
    ghost use Rattle.std.specs.Prelude.{ℕ, ◌+◌, List, [], ◌∷◌, ◌++◌, IfOk, IsTrue, nat_le, not, ◌&&◌, ◌||◌, false};
    ghost use Rattle.std.specs.List.{list_any};
    ghost use Rattle.asm86_line_types.specs.declared.line.Stmt86.{Stmt86};
    ghost use Rattle.asm86_line_types.specs.Order.{Reading, reading_after, at_start, in_order, is_free_cell, ends_text, may_stand};
    ghost use Rattle.asm86.specs.Place.{IsOrderAt, IsAfter};

    /// Before the first statement.
    pub fn new(alloc: Global) -> Result<Order, AllocError>
        ensures { IfOk result (λ o. IsAfter o []) }
    {
        Ok(Order {
            group: Group::Neither,
            code_came: false,
            data_came: false,
            at: 0,
            filled: AddressSet::new(alloc)?,
            is_ended: false,
        })
    }

    /// Whether END has come.
    pub fn is_ended(&self) -> bool
        ensures { (xs : List Stmt86) → IsAfter self.now xs → result ≡ list_any ends_text xs }
    {
        self.is_ended
    }

    /// Moves on past the next statement. False where it may not stand there.
    pub fn pass(&mut self, stmt: Stmt86) -> bool
        ensures verdict { (xs : List Stmt86) → IsAfter self.old xs → result ≡ in_order at_start (xs ++ stmt ∷ []) }
        ensures moves { (xs : List Stmt86) → IsAfter self.old xs → IsTrue result → IsAfter self.new (xs ++ stmt ∷ []) }
    {
        if self.is_ended || !self.may_stand(stmt) {
            return false;
        }
        self.move_past(stmt);
        true
    }

    // Whether a statement may stand here, where END has not come.
    fn may_stand(&self, stmt: Stmt86) -> bool
        ensures { (r : Reading) → IsOrderAt self.now r → result ≡ may_stand r stmt }
    {
        match stmt {
            Stmt86::Cseg => !self.code_came,
            Stmt86::Dseg => !self.data_came,
            Stmt86::Org(_) | Stmt86::Rb(_) => self.group == Group::Data,
            Stmt86::Db(_) => self.group == Group::Data && self.is_free(self.at),
            Stmt86::Dw(_) => self.group == Group::Data
                && self.is_free(self.at)
                && self.is_free(self.at + 1),
            Stmt86::EndText => true,
            _ => self.group == Group::Code,
        }
    }

    // Whether a data cell may be filled: from 100H up, within memory, and not filled before.
    fn is_free(&self, at: usize) -> bool
        ensures { (r : Reading) → IsOrderAt self.now r → result ≡ is_free_cell r at }
    {
        match u16::try_from(at) {
            Ok(at) => FIRST_CELL <= at && !self.filled.contains(at),
            Err(_) => false,
        }
    }

    // Moves on past a statement that may stand here.
    fn move_past(&mut self, stmt: Stmt86)
        ensures place { (r : Reading) → IsOrderAt self.old r → IsOrderAt self.new (reading_after r stmt) }
        ensures ended { self.new.is_ended ≡ (self.old.is_ended || ends_text stmt) }
    {
        match stmt {
            Stmt86::Cseg => {
                self.group = Group::Code;
                self.code_came = true;
            }
            Stmt86::Dseg => {
                self.group = Group::Data;
                self.data_came = true;
                self.at = 0;
            }
            Stmt86::Org(w) => self.at = usize::from(w),
            Stmt86::Rb(w) => self.at = (self.at + usize::from(w)).min(CELLS),
            Stmt86::Db(_) => self.fill(),
            Stmt86::Dw(_) => {
                self.fill();
                self.fill();
            }
            Stmt86::EndText => self.is_ended = true,
            _ => {}
        }
    }

    // Fills the cell at the data address, and moves on to the next.
    fn fill(&mut self)
        ensures place { (r : Reading) → IsOrderAt self.old r → IsOrderAt self.new (record r { at = r.at + 1; filled = r.at ∷ r.filled }) }
        ensures ended { self.new.is_ended ≡ self.old.is_ended }
    {
        if let Ok(at) = u16::try_from(self.at) {
            self.filled.insert(at);
            self.at += 1;
        }
    }
}
