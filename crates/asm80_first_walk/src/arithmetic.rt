//! Arithmetic of 16 bits.

ghost use Rattle.std.specs.Prelude.{◌≡◌};
ghost use Rattle.asm80_source_def.specs.Values.{binary, divides};

use asm80_types::Two;

/// What an operator gives of two operands; None where the divisor is 0.
pub fn binary(op: Two, a: u16, b: u16) -> Option<u16>
    ensures { result ≡ binary op a b }
{
    match op {
        Two::Mul => Some(a.wrapping_mul(b)),
        Two::Div if b != 0 => Some(a / b),
        Two::Mod if b != 0 => Some(a % b),
        Two::Div | Two::Mod => None,
        Two::Shl if b < 16 => Some(a.wrapping_shl(u32::from(b))),
        Two::Shr if b < 16 => Some(a >> b),
        Two::Shl | Two::Shr => Some(0),
        Two::Add => Some(a.wrapping_add(b)),
        Two::Sub => Some(a.wrapping_sub(b)),
        Two::And => Some(a & b),
        Two::Or => Some(a | b),
        Two::Xor => Some(a ^ b),
    }
}

/// Whether an operator has a divisor.
pub fn divides(op: Two) -> bool
    ensures { result ≡ divides op }
{
    match op {
        Two::Div | Two::Mod => true,
        _ => false,
    }
}
