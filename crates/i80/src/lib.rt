// The instructions of the 8080 with their table (Intel 8080 Assembly Language Programming Manual), all but HLT, EI, DI and RST 1 to 7.
//
// Proved, for every instruction: `well_formed`, `length`, `uses`, `defs` and `ends` are the columns of the table in `specs/Columns`:
// whether the 8080 has the instruction, how many bytes it has, which registers and flags it reads, which ones it gives a new value, and
// whether it ends a basic block.
#![tactic(auto)]

ghost use Rattle.std.specs.Prelude.{◌≡◌, IsTrue};
ghost use Rattle.i80.specs.Columns.{is_well_formed, length80, uses80, defs80, ends80, gives_zero};

mod parts;

use cells::{Cond, Keep, Part};
use parts::{
    a, address_parts, asked_of, carry_in, changed_by, counted_flags, cy, de, five_flags, flag, hl,
    operands, pair, read, result_in_a, stack_pair, written,
};

/// A register.
#[derive(Clone, Copy)]
pub enum Reg {
    A,
    B,
    C,
    D,
    E,
    H,
    L,
}

/// A byte operand: a register, or M, the cell at the address in HL.
#[derive(Clone, Copy)]
pub enum Src {
    Reg(Reg),
    Mem,
}

/// A register pair: BC, DE, HL or SP.
#[derive(Clone, Copy)]
pub enum Pair {
    B,
    D,
    H,
    Sp,
}

/// A pair that PUSH and POP take: BC, DE, HL or A with the flags.
#[derive(Clone, Copy)]
pub enum StackPair {
    B,
    D,
    H,
    Psw,
}

/// An operation on A.
#[derive(Clone, Copy)]
pub enum Op {
    Add,
    Adc,
    Sub,
    Sbb,
    Ana,
    Xra,
    Ora,
    Cmp,
}

impl Op {
    /// Whether the operation gives 0 whatever A holds: XRA A and SUB A.
    pub fn gives_zero(self, operand: Src) -> bool
        ensures { result ≡ gives_zero self operand }
    {
        matches!((self, operand), (Op::Xra | Op::Sub, Src::Reg(Reg::A)))
    }
}

/// The operand of LXI: a number, or the code address of an instruction.
#[derive(Clone, Copy)]
pub enum Word {
    Num(u16),
    Code(u16),
}

/// The target of a jump or call: an instruction's address, 0 (the system's warm start) or 5 (the BDOS).
#[derive(Clone, Copy)]
pub enum Goal {
    At(u16),
    Boot,
    Bdos,
}

/// An instruction. Immediate bytes and words, addresses and targets are its operands' values.
#[derive(Clone, Copy)]
pub enum Instr80 {
    Nop,
    Mov(Src, Src),
    Mvi(Src, u8),
    Lxi(Pair, Word),
    Lda(u16),
    Sta(u16),
    Lhld(u16),
    Shld(u16),
    Ldax(Pair),
    Stax(Pair),
    Xchg,
    Xthl,
    Sphl,
    Pchl,
    /// ADD, ADC, SUB, SBB, ANA, XRA, ORA or CMP
    Alu(Op, Src),
    /// ADI, ACI, SUI, SBI, ANI, XRI, ORI or CPI
    AluI(Op, u8),
    Inr(Src),
    Dcr(Src),
    Inx(Pair),
    Dcx(Pair),
    Dad(Pair),
    Daa,
    Cma,
    Stc,
    Cmc,
    Rlc,
    Rrc,
    Ral,
    Rar,
    Push(StackPair),
    Pop(StackPair),
    Jmp(Goal),
    /// JNZ, JZ, JNC, JC, JPO, JPE, JP or JM
    Jif(Cond, Goal),
    Call(Goal),
    /// CNZ, CZ, CNC, CC, CPO, CPE, CP or CM
    Cif(Cond, Goal),
    Ret,
    /// RNZ, RZ, RNC, RC, RPO, RPE, RP or RM
    Rif(Cond),
    Rst0,
    /// The port's byte into A.
    In(u8),
    /// A to the port.
    Out(u8),
}

/// Whether the 8080 has the instruction: it has no `MOV M,M`, and LDAX and STAX of BC and DE alone. No code address goes to SP.
pub fn well_formed(i: Instr80) -> bool
    ensures { result ≡ is_well_formed i }
{
    !matches!(
        i,
        Instr80::Mov(Src::Mem, Src::Mem)
            | Instr80::Ldax(Pair::H | Pair::Sp)
            | Instr80::Stax(Pair::H | Pair::Sp)
            | Instr80::Lxi(Pair::Sp, Word::Code(_))
    )
}

/// The bytes of the instruction: 1 to 3.
pub fn length(i: Instr80) -> u16
    requires { IsTrue (is_well_formed i) }
    ensures { result ≡ length80 i }
{
    match i {
        Instr80::Lxi(_, _)
        | Instr80::Lda(_)
        | Instr80::Sta(_)
        | Instr80::Lhld(_)
        | Instr80::Shld(_)
        | Instr80::Jmp(_)
        | Instr80::Jif(_, _)
        | Instr80::Call(_)
        | Instr80::Cif(_, _) => 3,
        Instr80::Mvi(_, _) | Instr80::AluI(_, _) | Instr80::In(_) | Instr80::Out(_) => 2,
        _ => 1,
    }
}

/// Whether the instruction ends a block: a jump, a call or a return may go elsewhere than to the one after it, and IN and OUT
/// ask a port.
pub fn ends(i: Instr80) -> bool
    requires { IsTrue (is_well_formed i) }
    ensures { result ≡ ends80 i }
{
    matches!(
        i,
        Instr80::Pchl
            | Instr80::Jmp(_)
            | Instr80::Jif(_, _)
            | Instr80::Call(_)
            | Instr80::Cif(_, _)
            | Instr80::Ret
            | Instr80::Rif(_)
            | Instr80::Rst0
            | Instr80::In(_)
            | Instr80::Out(_)
    )
}

/// The parts whose value the instruction reads.
pub fn uses(i: Instr80) -> Keep
    requires { IsTrue (is_well_formed i) }
    ensures { result ≡ uses80 i }
{
    match i {
        Instr80::Mov(to, from) => address_parts(to).join(read(from)),
        Instr80::Mvi(to, _) => address_parts(to),
        Instr80::Inr(operand) | Instr80::Dcr(operand) => read(operand),
        Instr80::Alu(op, operand) => operands(op, operand),
        Instr80::AluI(op, _) => a().join(carry_in(op)),
        Instr80::Sta(_) | Instr80::Out(_) | Instr80::Cma | Instr80::Rlc | Instr80::Rrc => a(),
        Instr80::Ral | Instr80::Rar => a().with(Part::Cy),
        Instr80::Daa => a().with(Part::Ac).with(Part::Cy),
        Instr80::Cmc => cy(),
        Instr80::Shld(_) | Instr80::Xthl | Instr80::Sphl | Instr80::Pchl => hl(),
        Instr80::Xchg => hl().join(de()),
        Instr80::Ldax(registers) => pair(registers),
        Instr80::Stax(registers) => a().join(pair(registers)),
        Instr80::Inx(registers) | Instr80::Dcx(registers) => pair(registers),
        Instr80::Dad(registers) => hl().join(pair(registers)),
        Instr80::Push(stored) => stack_pair(stored),
        Instr80::Jmp(goal) | Instr80::Call(goal) => asked_of(goal),
        Instr80::Jif(cond, goal) | Instr80::Cif(cond, goal) => flag(cond).join(asked_of(goal)),
        Instr80::Rif(cond) => flag(cond),
        Instr80::Nop
        | Instr80::Lxi(_, _)
        | Instr80::Lda(_)
        | Instr80::Lhld(_)
        | Instr80::Stc
        | Instr80::Pop(_)
        | Instr80::Ret
        | Instr80::Rst0
        | Instr80::In(_) => Keep::none(),
    }
}

/// The parts that the instruction gives a new value, whatever they held. A conditional jump, call or return defines none.
pub fn defs(i: Instr80) -> Keep
    requires { IsTrue (is_well_formed i) }
    ensures { result ≡ defs80 i }
{
    match i {
        Instr80::Mov(to, _) | Instr80::Mvi(to, _) => written(to),
        Instr80::Inr(operand) | Instr80::Dcr(operand) => written(operand).join(counted_flags()),
        Instr80::Alu(op, _) | Instr80::AluI(op, _) => result_in_a(op).join(five_flags()),
        Instr80::Daa => a().join(five_flags()),
        Instr80::Lda(_) | Instr80::Ldax(_) | Instr80::In(_) | Instr80::Cma => a(),
        Instr80::Rlc | Instr80::Rrc | Instr80::Ral | Instr80::Rar => a().with(Part::Cy),
        Instr80::Stc | Instr80::Cmc => cy(),
        Instr80::Lxi(registers, _) | Instr80::Inx(registers) | Instr80::Dcx(registers) => pair(
            registers,
        ),
        Instr80::Lhld(_) | Instr80::Xthl => hl(),
        Instr80::Dad(_) => hl().with(Part::Cy),
        Instr80::Xchg => hl().join(de()),
        Instr80::Pop(loaded) => stack_pair(loaded),
        Instr80::Jmp(goal) | Instr80::Call(goal) => changed_by(goal),
        Instr80::Nop
        | Instr80::Sta(_)
        | Instr80::Shld(_)
        | Instr80::Stax(_)
        | Instr80::Sphl
        | Instr80::Pchl
        | Instr80::Push(_)
        | Instr80::Ret
        | Instr80::Rst0
        | Instr80::Out(_) => Keep::none(),
        Instr80::Rif(_) | Instr80::Jif(_, _) | Instr80::Cif(_, _) => Keep::none(),
    }
}
