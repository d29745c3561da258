//! How many cells statements fill.

ghost use Rattle.std.specs.Prelude.{◌≡◌, ◌%◌, map, sum_by};
ghost use Rattle.asm80_types.specs.Tree.{operand_of, Statement};
ghost use Rattle.asm80_source_def.specs.Operations.{operand_kinds};
ghost use Rattle.asm80_source_def.specs.Walk.{bytes_of_item, size_by, size_of_kinds};

use asm80_source_def::Operation;
use asm80_types::Arg;

/// The cells that a statement fills, modulo 65,536, also where its operands are refused later.
pub fn size_of(operation: Option<Operation>, args: &[Arg]) -> u16
    ensures { (s : Statement) → s.args ≡ map operand_of args.now → result ≡ size_by s operation % 0x10000 }
{
    let Some(operation) = operation else {
        return 0;
    };
    match operation {
        Operation::Db => size_of_bytes(args),
        // (an item of DW has two bytes)
        Operation::Dw => ((args.len() % 0x1_0000) as u16).wrapping_mul(2),
        _ => size_of_instruction(operation),
    }
}

// The bytes of the items of a DB: a string has one for each character, any other item is one.
fn size_of_bytes(args: &[Arg]) -> u16
    ensures { result ≡ sum_by bytes_of_item (map operand_of args.now) % 0x10000 }
{
    let mut size = 0u16;
    for arg in args {
        size = size.wrapping_add(size_of_item(arg));
    }
    size
}

fn size_of_item(arg: &Arg) -> u16
    ensures { result ≡ bytes_of_item (operand_of arg.now) % 0x10000 }
{
    match arg {
        Arg::Text(bytes) => (bytes.as_slice().len() % 0x1_0000) as u16,
        Arg::Value(_) => 1,
    }
}

// The bytes of an instruction; a directive has none.
fn size_of_instruction(operation: Operation) -> u16
    ensures { result ≡ size_of_kinds (operand_kinds operation) }
{
    match operation {
        Operation::Org
        | Operation::End
        | Operation::Equ
        | Operation::Set
        | Operation::If
        | Operation::EndIf
        | Operation::Db
        | Operation::Dw
        | Operation::Ds => 0,
        Operation::Mvi | Operation::AluI(_) | Operation::In | Operation::Out => 2,
        Operation::Lxi
        | Operation::Lda
        | Operation::Sta
        | Operation::Lhld
        | Operation::Shld
        | Operation::Jmp
        | Operation::Jif(_)
        | Operation::Call
        | Operation::Cif(_) => 3,
        _ => 1,
    }
}
