// What a reply leaves in the registers.
ghost use Rattle.std.specs.Prelude.{◌≡◌, IsTrue};
ghost use Rattle.dialogue.specs.Fits.{answer_fits};
ghost use Rattle.cpu80_tagged.specs.Call.{answered};
ghost use Rattle.cpu80_tagged.specs.State.{junk_regs};
ghost use Rattle.cpu80_tagged.specs.Draft.{regs_of_draft};

use crate::registers::Registers;
use cells::Cell;
use dialogue::AnswerKind;

/// Registers of which nothing is known.
pub fn junk() -> Registers
    ensures { regs_of_draft result ≡ junk_regs }
{
    Registers {
        a: Cell::Junk,
        b: Cell::Junk,
        c: Cell::Junk,
        d: Cell::Junk,
        e: Cell::Junk,
        h: Cell::Junk,
        l: Cell::Junk,
    }
}

/// The registers after a reply: a byte answer in A and L; a word answer in HL, with A equal to L and B to H. Nothing is
/// known of the others.
pub fn answered(kind: AnswerKind, answer: u16) -> Registers
    requires { IsTrue (answer_fits kind answer) }
    ensures { regs_of_draft result ≡ answered kind answer }
{
    let mut registers = junk();
    match kind {
        AnswerKind::NoAnswer => {}
        AnswerKind::ByteAnswer => {
            registers.a = Cell::Num(answer as u8);
            registers.l = Cell::Num(answer as u8);
        }
        AnswerKind::WordAnswer => {
            let low = Cell::Num((answer % 256) as u8);
            let high = Cell::Num((answer / 256) as u8);
            registers.a = low;
            registers.l = low;
            registers.b = high;
            registers.h = high;
        }
    }
    registers
}
