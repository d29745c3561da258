// The statements of each instruction: A is AL, BC CX, DE DX, HL BX; AH and SI are scratch.
ghost use Rattle.std.specs.Prelude.{◌≡◌, [], ◌∷◌, true, IsTrue};
ghost use Rattle.i80.specs.Columns.{is_well_formed};
ghost use Rattle.templates.specs.Template.{word_register, mov, mvi, lxi, saved, dad, push, pop, call, where_holds, template};

use crate::operands::{label_of, op_of, operand_of, pair_of, reg_of, unless};
use crate::sequence::Sequence;
use asm86_line_types::{Label, Stmt86};
use cells::Cond;
use i80::{Goal, Instr80, Pair, Src, StackPair, Word};
use i86::{Count, Instr86, Operand8, Operand16, Ptr, Reg8, Reg16, Rotate, StackReg};

// One instruction.
fn run(i: Instr86) -> Sequence
    ensures { result ≡ Stmt86.Run i ∷ [] }
{
    Sequence::one(Stmt86::Run(i))
}

fn mov(to: Src, from: Src) -> Sequence
    requires { IsTrue (is_well_formed (Instr80.Mov to from)) }
    ensures { result ≡ mov to from }
{
    match (to, from) {
        (Src::Reg(to), _) => run(Instr86::MovReg8(reg_of(to), operand_of(from))),
        (Src::Mem, Src::Reg(from)) => run(Instr86::MovMem8(Ptr::Bx, reg_of(from))),
        (Src::Mem, Src::Mem) => unreachable!(),
    }
}

fn mvi(to: Src, n: u8) -> Sequence
    ensures { result ≡ mvi to n }
{
    match to {
        Src::Reg(reg) => run(Instr86::MovNum8(reg_of(reg), n)),
        Src::Mem => run(Instr86::MovMemNum(Ptr::Bx, n)),
    }
}

fn lxi(pair: Pair, word: Word) -> Sequence
    ensures { result ≡ lxi pair word }
{
    match word {
        Word::Num(w) => run(Instr86::MovNum16(pair_of(pair), w)),
        Word::Code(at) => Sequence::one(Stmt86::MovOffset(pair_of(pair), Label::At(at))),
    }
}

// LDAX and STAX: the address goes through SI, and the byte by this instruction.
fn through_si(pair: Pair, i: Instr86) -> Sequence
    ensures { result ≡ Stmt86.Run (Instr86.MovReg16 Reg16.Si (Operand16.Reg (word_register pair))) ∷ (Stmt86.Run i ∷ []) }
{
    Sequence::of(&[
        Stmt86::Run(Instr86::MovReg16(Reg16::Si, Operand16::Reg(pair_of(pair)))),
        Stmt86::Run(i),
    ])
}

fn xthl() -> Sequence
    ensures { result ≡ template Instr80.Xthl 0 true }
{
    Sequence::of(&[
        Stmt86::Run(Instr86::Pop(StackReg::Si)),
        Stmt86::Run(Instr86::Push(StackReg::Bx)),
        Stmt86::Run(Instr86::MovReg16(Reg16::Bx, Operand16::Reg(Reg16::Si))),
    ])
}

// An instruction with the flags saved in AH round it.
fn saved(save: bool, i: Instr86) -> Sequence
    ensures { result ≡ saved save (Stmt86.Run i) }
{
    if save {
        Sequence::of(&[
            Stmt86::Run(Instr86::Lahf),
            Stmt86::Run(i),
            Stmt86::Run(Instr86::Sahf),
        ])
    } else {
        run(i)
    }
}

// DAD changes CY alone: the carry goes round through SI.
fn dad(save: bool, pair: Pair) -> Sequence
    ensures { result ≡ dad save pair }
{
    let add = Instr86::Add16(Reg16::Bx, pair_of(pair));
    if save {
        Sequence::of(&[
            Stmt86::Run(Instr86::Lahf),
            Stmt86::Run(add),
            Stmt86::Run(Instr86::Rotate16(Rotate::Rcr, Reg16::Si)),
            Stmt86::Run(Instr86::Sahf),
            Stmt86::Run(Instr86::Rotate16(Rotate::Rcl, Reg16::Si)),
        ])
    } else {
        run(add)
    }
}

// PUSH PSW puts A above the flag byte.
fn push(pair: StackPair) -> Sequence
    ensures { result ≡ push pair }
{
    match pair {
        StackPair::B => run(Instr86::Push(StackReg::Cx)),
        StackPair::D => run(Instr86::Push(StackReg::Dx)),
        StackPair::H => run(Instr86::Push(StackReg::Bx)),
        StackPair::Psw => Sequence::of(&[
            Stmt86::Run(Instr86::Lahf),
            Stmt86::Run(Instr86::Xchg8(Reg8::Al, Reg8::Ah)),
            Stmt86::Run(Instr86::Push(StackReg::Ax)),
            Stmt86::Run(Instr86::Xchg8(Reg8::Al, Reg8::Ah)),
        ]),
    }
}

fn pop(pair: StackPair) -> Sequence
    ensures { result ≡ pop pair }
{
    match pair {
        StackPair::B => run(Instr86::Pop(StackReg::Cx)),
        StackPair::D => run(Instr86::Pop(StackReg::Dx)),
        StackPair::H => run(Instr86::Pop(StackReg::Bx)),
        StackPair::Psw => Sequence::of(&[
            Stmt86::Run(Instr86::Pop(StackReg::Ax)),
            Stmt86::Run(Instr86::Xchg8(Reg8::Al, Reg8::Ah)),
            Stmt86::Run(Instr86::Sahf),
        ]),
    }
}

// CALL 0 ends the program as JMP 0 does.
fn call_of(goal: Goal) -> Stmt86
    ensures { result ∷ [] ≡ call goal }
{
    match goal {
        Goal::At(at) => Stmt86::Call(Label::At(at)),
        Goal::Boot => Stmt86::Jmp(Label::End),
        Goal::Bdos => Stmt86::Call(Label::Sys),
    }
}

// A statement that is jumped over where the condition does not hold.
fn where_holds(cond: Cond, at: u16, statement: Stmt86) -> Sequence
    ensures { result ≡ where_holds cond at (statement ∷ []) }
{
    Sequence::of(&[
        Stmt86::Jcc(unless(cond), Label::Skip(at)),
        statement,
        Stmt86::Mark(Label::Skip(at)),
    ])
}

/// The statements of the instruction at an address, with or without a save of the flags round INX, DCX and DAD.
pub fn template(i: Instr80, at: u16, save: bool) -> Sequence
    requires { IsTrue (is_well_formed i) }
    ensures { result ≡ template i at save }
{
    match i {
        Instr80::Nop => run(Instr86::Nop),
        Instr80::Mov(to, from) => mov(to, from),
        Instr80::Mvi(to, n) => mvi(to, n),
        Instr80::Lxi(pair, word) => lxi(pair, word),
        Instr80::Lda(address) => run(Instr86::MovAlDirect(address)),
        Instr80::Sta(address) => run(Instr86::MovDirectAl(address)),
        Instr80::Lhld(address) => run(Instr86::MovReg16(Reg16::Bx, Operand16::Direct(address))),
        Instr80::Shld(address) => run(Instr86::MovDirect16(address, Reg16::Bx)),
        Instr80::Ldax(pair) => through_si(pair, Instr86::MovReg8(Reg8::Al, Operand8::Mem(Ptr::Si))),
        Instr80::Stax(pair) => through_si(pair, Instr86::MovMem8(Ptr::Si, Reg8::Al)),
        Instr80::Xchg => run(Instr86::Xchg16(Reg16::Bx, Reg16::Dx)),
        Instr80::Xthl => xthl(),
        Instr80::Sphl => run(Instr86::MovReg16(Reg16::Sp, Operand16::Reg(Reg16::Bx))),
        Instr80::Pchl => run(Instr86::JmpBx),
        Instr80::Alu(op, operand) => run(Instr86::Alu(op_of(op), operand_of(operand))),
        Instr80::AluI(op, n) => run(Instr86::AluNum(op_of(op), n)),
        Instr80::Inr(operand) => run(Instr86::Count8(Count::Inc, operand_of(operand))),
        Instr80::Dcr(operand) => run(Instr86::Count8(Count::Dec, operand_of(operand))),
        Instr80::Inx(pair) => saved(save, Instr86::Count16(Count::Inc, pair_of(pair))),
        Instr80::Dcx(pair) => saved(save, Instr86::Count16(Count::Dec, pair_of(pair))),
        Instr80::Dad(pair) => dad(save, pair),
        Instr80::Daa => run(Instr86::Daa),
        Instr80::Cma => run(Instr86::Not8(Reg8::Al)),
        Instr80::Stc => run(Instr86::Stc),
        Instr80::Cmc => run(Instr86::Cmc),
        Instr80::Rlc => run(Instr86::Rotate8(Rotate::Rol, Reg8::Al)),
        Instr80::Rrc => run(Instr86::Rotate8(Rotate::Ror, Reg8::Al)),
        Instr80::Ral => run(Instr86::Rotate8(Rotate::Rcl, Reg8::Al)),
        Instr80::Rar => run(Instr86::Rotate8(Rotate::Rcr, Reg8::Al)),
        Instr80::Push(pair) => push(pair),
        Instr80::Pop(pair) => pop(pair),
        Instr80::Jmp(goal) => Sequence::one(Stmt86::Jmp(label_of(goal))),
        Instr80::Jif(cond, goal) => where_holds(cond, at, Stmt86::Jmp(label_of(goal))),
        Instr80::Call(goal) => Sequence::one(call_of(goal)),
        Instr80::Cif(cond, goal) => where_holds(cond, at, call_of(goal)),
        Instr80::Ret => run(Instr86::Ret),
        Instr80::Rif(cond) => where_holds(cond, at, Stmt86::Run(Instr86::Ret)),
        Instr80::Rst0 => Sequence::one(Stmt86::Jmp(Label::End)),
        Instr80::In(port) => run(Instr86::InAl(port)),
        Instr80::Out(port) => run(Instr86::OutAl(port)),
    }
}
