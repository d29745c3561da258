// The instruction of an operation with its operands (Intel 8080 Assembly Language Programming Manual, chapter 2).
ghost use Rattle.std.specs.Prelude.{◌≡◌, ◌==◌, ◌<◌, [], ◌∷◌, length, cond, Some, None, IfSome, map};
ghost use Rattle.asm80_types.specs.Tree.{operand_of};
ghost use Rattle.asm80_types.specs.Program.{IsCoded};
ghost use Rattle.asm80_values.specs.Settings.{setting_of};
ghost use Rattle.asm80_source_def.specs.Items.{goal, instruction, word_of};
ghost use Rattle.asm80_values.specs.Instructions.{register_instruction, target_instruction};

use crate::registers::{indirect_of, pair_of, src_of, stack_of};
use crate::setting::{Setting, byte, code_address, value};
use asm80_source_def::Operation;
use asm80_types::Arg;
use i80::{Goal, Instr80, Pair, Word};

// The immediate word of LXI, a code address or a number; that of LXI SP is a number always.
fn word_of(setting: &Setting<'_>, pair: Pair, arg: &Arg) -> Word
    ensures word { result ≡ word_of (setting_of setting.now) pair (operand_of arg.now) }
    ensures coded { (p : Pair) → IsCoded (Instr80.Lxi p result) }
{
    match pair {
        Pair::Sp => Word::Num(value(setting, arg)),
        _ => match code_address(setting, arg) {
            Some(at) => Word::Code(at),
            None => Word::Num(value(setting, arg)),
        },
    }
}

// The target of a jump or call: 0 is the warm boot and 5 the system's entry.
fn goal(at: u16) -> Goal
    ensures { result ≡ goal at }
{
    match at {
        0 => Goal::Boot,
        5 => Goal::Bdos,
        _ => Goal::At(at),
    }
}

// RST of a number; of the profile is RST 0 alone.
fn restart(number: u16) -> Option<Instr80>
    ensures instr { result ≡ cond (number == 0) (Some Instr80.Rst0) None }
    ensures coded { IfSome result (λ x. IsCoded x) }
{
    if number == 0 {
        Some(Instr80::Rst0)
    } else {
        None
    }
}

// LXI of a pair.
fn load(setting: &Setting<'_>, a: &Arg, b: &Arg) -> Option<Instr80>
    ensures instr { result ≡ instruction (setting_of setting.now) Operation.Lxi (operand_of a.now ∷ operand_of b.now ∷ []) }
    ensures coded { IfSome result (λ x. IsCoded x) }
{
    let pair = pair_of(a)?;
    Some(Instr80::Lxi(pair, word_of(setting, pair, b)))
}

// An instruction without operands.
fn bare(setting: &Setting<'_>, operation: Operation) -> Option<Instr80>
    ensures { result ≡ instruction (setting_of setting.now) operation [] }
{
    match operation {
        Operation::Bare(instr) => Some(instr),
        _ => None,
    }
}

// An instruction with one operand, which is a register or a pair.
fn with_register(operation: Operation, arg: &Arg) -> Option<Instr80>
    ensures instr { result ≡ register_instruction operation (operand_of arg.now) }
    ensures coded { IfSome result (λ x. IsCoded x) }
{
    match operation {
        Operation::Ldax => indirect_of(arg).map(Instr80::Ldax),
        Operation::Stax => indirect_of(arg).map(Instr80::Stax),
        Operation::Alu(op) => Some(Instr80::Alu(op, src_of(arg)?)),
        Operation::Inr => src_of(arg).map(Instr80::Inr),
        Operation::Dcr => src_of(arg).map(Instr80::Dcr),
        Operation::Inx => pair_of(arg).map(Instr80::Inx),
        Operation::Dcx => pair_of(arg).map(Instr80::Dcx),
        Operation::Dad => pair_of(arg).map(Instr80::Dad),
        Operation::Push => stack_of(arg).map(Instr80::Push),
        Operation::Pop => stack_of(arg).map(Instr80::Pop),
        _ => None,
    }
}

// An instruction with one operand, which is a target, a register or a pair.
fn with_target(setting: &Setting<'_>, operation: Operation, arg: &Arg) -> Option<Instr80>
    ensures instr { result ≡ target_instruction (setting_of setting.now) operation (operand_of arg.now) }
    ensures coded { IfSome result (λ x. IsCoded x) }
{
    match operation {
        Operation::Jmp => Some(Instr80::Jmp(goal(value(setting, arg)))),
        Operation::Jif(cond) => Some(Instr80::Jif(cond, goal(value(setting, arg)))),
        Operation::Call => Some(Instr80::Call(goal(value(setting, arg)))),
        Operation::Cif(cond) => Some(Instr80::Cif(cond, goal(value(setting, arg)))),
        _ => with_register(operation, arg),
    }
}

// An instruction with one operand.
fn with_one(setting: &Setting<'_>, operation: Operation, arg: &Arg) -> Option<Instr80>
    ensures instr { result ≡ instruction (setting_of setting.now) operation (operand_of arg.now ∷ []) }
    ensures coded { IfSome result (λ x. IsCoded x) }
{
    match operation {
        Operation::Lda => Some(Instr80::Lda(value(setting, arg))),
        Operation::Sta => Some(Instr80::Sta(value(setting, arg))),
        Operation::Lhld => Some(Instr80::Lhld(value(setting, arg))),
        Operation::Shld => Some(Instr80::Shld(value(setting, arg))),
        Operation::AluI(op) => Some(Instr80::AluI(op, byte(setting, arg))),
        Operation::In => Some(Instr80::In(byte(setting, arg))),
        Operation::Out => Some(Instr80::Out(byte(setting, arg))),
        Operation::Rst => restart(value(setting, arg)),
        _ => with_target(setting, operation, arg),
    }
}

// An instruction with two operands.
fn with_two(setting: &Setting<'_>, operation: Operation, a: &Arg, b: &Arg) -> Option<Instr80>
    ensures instr { result ≡ instruction (setting_of setting.now) operation (operand_of a.now ∷ operand_of b.now ∷ []) }
    ensures coded { IfSome result (λ x. IsCoded x) }
{
    match operation {
        Operation::Mov => Some(Instr80::Mov(src_of(a)?, src_of(b)?)),
        Operation::Mvi => Some(Instr80::Mvi(src_of(a)?, byte(setting, b))),
        Operation::Lxi => load(setting, a, b),
        _ => None,
    }
}

/// The instruction of an operation with its operands; None where it is not of the profile.
pub fn instruction(setting: &Setting<'_>, operation: Operation, args: &[Arg]) -> Option<Instr80>
    ensures instr { result ≡ instruction (setting_of setting.now) operation (map operand_of args.now) }
    ensures coded { 0 < length (map operand_of args.now) → IfSome result (λ x. IsCoded x) }
{
    match args.len() {
        0 => bare(setting, operation),
        1 => with_one(setting, operation, &args[0]),
        2 => with_two(setting, operation, &args[0], &args[1]),
        _ => None,
    }
}
