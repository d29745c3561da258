// The memory that a call of the system sees.
ghost use Rattle.std.specs.Prelude.{◌≡◌, length};
ghost use Rattle.cpu80_tagged.specs.Call.{is_just_below};

use crate::area::CellUse;
use crate::numbers::number_in;
use cells::Cell;
use dialogue::View;

/// Whether a cell is one of the eight below a stack pointer.
pub fn is_just_below(sp: u16, at: u16) -> bool
    ensures { result ≡ is_just_below sp at }
{
    sp.wrapping_sub(1).wrapping_sub(at) < 8
}

/// Memory, what the program makes of each cell, and SP before the call pushes; `is_popped` where the two cells at SP are the return
/// that a jump to 5 pops.
#[derive(Clone, Copy)]
pub struct Sight<'a> {
    pub memory: &'a [Cell],
    pub uses: &'a [CellUse],
    pub sp: u16,
    pub is_popped: bool,
    ghost full: { length memory.now ≡ 65536 },
    ghost all_used: { length uses.now ≡ 65536 },
}

impl View for Sight<'_> {
    ghost use Rattle.cpu80_tagged.specs.Draft.{memory_of};
    ghost use Rattle.cpu80_tagged.specs.Sight.{byte_over, writable_over, closed_in};

    ghost byte_at = { λ v. byte_over (closed_in v.uses.now) (memory_of v.memory.now) v.sp };

    ghost is_writable = { λ v. writable_over (closed_in v.uses.now) v.sp v.is_popped };

    fn byte(&self, at: u16) -> Option<u8> {
        if is_just_below(self.sp, at) || self.uses[at as usize].is_closed() {
            None
        } else {
            number_in(self.memory[at as usize])
        }
    }

    fn writable(&self, at: u16) -> bool {
        let is_write_protected = self.uses[at as usize].is_closed() || at == 6 || at == 7;
        let is_return = self.is_popped && (at == self.sp || at == self.sp.wrapping_add(1));
        !(is_just_below(self.sp, at) || is_write_protected || is_return)
    }
}
