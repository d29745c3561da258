// Where operands are evaluated.
ghost use Rattle.std.specs.Prelude.{◌≡◌};
ghost use Rattle.asm80_types.specs.Tree.{operand_of};
ghost use Rattle.asm80_values.specs.Settings.{setting_of};
ghost use Rattle.asm80_source_def.specs.Items.{value, byte, code_address};

use asm80_first_walk::{Scope, operand_number, operand_place};
use asm80_types::Arg;
use base::AddressSet;

/// Where operands are evaluated: what they see, and the addresses at which instructions start.
#[derive(Clone, Copy)]
pub struct Setting<'a> {
    pub scope: Scope<'a>,
    pub starts: &'a AddressSet,
}

/// The value of an operand; 0 where a fault hides it.
pub fn value(setting: &Setting<'_>, arg: &Arg) -> u16
    ensures { result ≡ value (setting_of setting.now) (operand_of arg.now) }
{
    operand_number(&setting.scope, arg).unwrap_or(0)
}

/// The low byte of the value.
pub fn byte(setting: &Setting<'_>, arg: &Arg) -> u8
    ensures { result ≡ byte (setting_of setting.now) (operand_of arg.now) }
{
    value(setting, arg).to_le_bytes()[0]
}

/// The code address that an operand is: a place name or `$` alone whose address is the start of an instruction.
pub fn code_address(setting: &Setting<'_>, arg: &Arg) -> Option<u16>
    ensures { result ≡ code_address (setting_of setting.now) (operand_of arg.now) }
{
    match operand_place(&setting.scope, arg) {
        Some(at) if setting.starts.contains(at) => Some(at),
        _ => None,
    }
}
