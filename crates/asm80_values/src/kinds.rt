// The operands that each operation takes.
ghost use Rattle.std.specs.Prelude.{◌≡◌, option_map};
ghost use Rattle.asm80_source_def.specs.Operations.{operand_kinds};
ghost use Rattle.asm80_source_def.specs.Operands.{is_value_kind};

use asm80_source_def::{Kind, Operation};

/// The kinds of the operands of an instruction; None of a directive.
pub fn kinds_of(operation: Operation) -> Option<&'static [Kind]>
    ensures { option_map (λ ks. ks.now) result ≡ operand_kinds operation }
{
    match operation {
        Operation::Org
        | Operation::End
        | Operation::Equ
        | Operation::Set
        | Operation::If
        | Operation::EndIf
        | Operation::Db
        | Operation::Dw
        | Operation::Ds => None,
        Operation::Bare(_) | Operation::Foreign => Some(&[]),
        Operation::Mov => Some(&[Kind::Register, Kind::Register]),
        Operation::Mvi => Some(&[Kind::Register, Kind::Byte]),
        Operation::Lxi => Some(&[Kind::Pair, Kind::Word]),
        Operation::Lda | Operation::Sta | Operation::Lhld | Operation::Shld => {
            Some(&[Kind::Address])
        }
        Operation::Ldax | Operation::Stax => Some(&[Kind::Indirect]),
        Operation::Alu(_) | Operation::Inr | Operation::Dcr => Some(&[Kind::Register]),
        Operation::AluI(_) | Operation::In | Operation::Out => Some(&[Kind::Byte]),
        Operation::Inx | Operation::Dcx | Operation::Dad => Some(&[Kind::Pair]),
        Operation::Push | Operation::Pop => Some(&[Kind::Stack]),
        Operation::Jmp | Operation::Jif(_) | Operation::Call | Operation::Cif(_) => {
            Some(&[Kind::Target])
        }
        Operation::Rst => Some(&[Kind::Restart]),
    }
}

/// Whether an operand of this kind is a value.
pub fn is_value_kind(kind: Kind) -> bool
    ensures { result ≡ is_value_kind kind }
{
    match kind {
        Kind::Register | Kind::Pair | Kind::Indirect | Kind::Stack => false,
        Kind::Byte | Kind::Word | Kind::Address | Kind::Target | Kind::Restart => true,
    }
}
