// Registers as operands.
ghost use Rattle.std.specs.Prelude.{◌≡◌, option_map};
ghost use Rattle.asm80_types.specs.Tree.{operand_of};
ghost use Rattle.asm80_source_def.specs.Operands.{register_name, src_of, pair_of_operand, indirect_of, stack_of};

use asm80_types::{Arg, Expr};
use i80::{Pair, Reg, Src, StackPair};

// The name that an operand is.
fn register_name(arg: &Arg) -> Option<&[u8]>
    ensures { option_map (λ name. name.now) result ≡ register_name (operand_of arg.now) }
{
    match arg {
        Arg::Value(Expr::Name(name)) => Some(name.as_slice()),
        _ => None,
    }
}

/// The register that an operand names, or M.
pub fn src_of(arg: &Arg) -> Option<Src>
    ensures { result ≡ src_of (operand_of arg.now) }
{
    match register_name(arg) {
        Some(b"A") => Some(Src::Reg(Reg::A)),
        Some(b"B") => Some(Src::Reg(Reg::B)),
        Some(b"C") => Some(Src::Reg(Reg::C)),
        Some(b"D") => Some(Src::Reg(Reg::D)),
        Some(b"E") => Some(Src::Reg(Reg::E)),
        Some(b"H") => Some(Src::Reg(Reg::H)),
        Some(b"L") => Some(Src::Reg(Reg::L)),
        Some(b"M") => Some(Src::Mem),
        _ => None,
    }
}

/// The pair that an operand names, or SP.
pub fn pair_of(arg: &Arg) -> Option<Pair>
    ensures { result ≡ pair_of_operand (operand_of arg.now) }
{
    match register_name(arg) {
        Some(b"B") => Some(Pair::B),
        Some(b"D") => Some(Pair::D),
        Some(b"H") => Some(Pair::H),
        Some(b"SP") => Some(Pair::Sp),
        _ => None,
    }
}

/// The pair of LDAX and STAX that an operand names.
pub fn indirect_of(arg: &Arg) -> Option<Pair>
    ensures { result ≡ indirect_of (operand_of arg.now) }
{
    match register_name(arg) {
        Some(b"B") => Some(Pair::B),
        Some(b"D") => Some(Pair::D),
        _ => None,
    }
}

/// The pair of PUSH and POP that an operand names.
pub fn stack_of(arg: &Arg) -> Option<StackPair>
    ensures { result ≡ stack_of (operand_of arg.now) }
{
    match register_name(arg) {
        Some(b"B") => Some(StackPair::B),
        Some(b"D") => Some(StackPair::D),
        Some(b"H") => Some(StackPair::H),
        Some(b"PSW") => Some(StackPair::Psw),
        _ => None,
    }
}
