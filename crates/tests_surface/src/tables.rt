// The values and tables: `cells`, `i80` and `i86`.
use cells::{Cell, Cond, Flags, Keep, Part, Place, Rule};
use i80::{Goal, Instr80, Op, Pair, Reg, Src, StackPair, Word};
use i86::{Code, Instr86, Operand16, Ptr, Reg8, Reg16, decode, encode};
use std::test::Fail;

#[test]
fn keeps_are_sets(rt: HostRuntime) {
    let keep: Keep = Keep::none().with(Part::A).join(Keep::none().with(Part::Cy));
    assert!(rt; keep.has(Part::A) && keep.has(Part::Cy) && !keep.has(Part::B));
    assert!(rt; Keep::all().has(Part::L) && !Keep::none().has(Part::L));
}

#[test]
fn flags_are_known_or_not(rt: HostRuntime) {
    // Bits 7, 6, 4, 2 and 0 are S, Z, AC, P and CY.
    let flags: Flags = Flags::of_byte(0x41);
    assert!(rt; flags.z == Some(true) && flags.cy == Some(true) && flags.s == Some(false));
    assert!(rt; flags.holds(Cond::Nz) == Some(false));
    assert!(rt; Flags::unknown().holds(Cond::C).is_none());
    let cells = [
        Cell::Num(1),
        Cell::Lo(Place::At(0x100)),
        Cell::Hi(Place::Exit),
        Cell::Psw(flags),
        Cell::Junk,
    ];
    assert!(rt; cells[0] == Cell::Num(1) && Rule::P1 != Rule::P2);
}

#[test]
fn columns_of_the_8080(rt: HostRuntime) {
    let jump = Instr80::Jmp(Goal::At(0x100));
    let load = Instr80::Lxi(Pair::H, Word::Num(0x1234));
    let add = Instr80::Alu(Op::Add, Src::Reg(Reg::B));
    let push = Instr80::Push(StackPair::Psw);
    assert!(rt; i80::well_formed(jump) && !i80::well_formed(Instr80::Mov(Src::Mem, Src::Mem)));
    assert!(rt; i80::length(load) == 3 && i80::length(push) == 1);
    assert!(rt; i80::uses(add).has(Part::B) && i80::defs(add).has(Part::Cy));
    assert!(rt; i80::ends(jump) && !i80::ends(add));
}

#[test]
fn encodings_of_the_8086(rt: HostRuntime) -> Result<(), Fail> {
    // MOV CL,2 is B1 02; MOV SP,SI is 8B E6.
    let code: Code = encode(Instr86::MovNum8(Reg8::Cl, 2));
    assert!(rt; code.bytes() == [0xB1, 2].as_slice());
    let (instr, length) = decode(&[0x8B, 0xE6, 0]).ok_or("an instruction")?;
    assert!(rt; length == 2);
    assert!(rt; instr == Instr86::MovReg16(Reg16::Sp, Operand16::Reg(Reg16::Si)));
    assert!(rt; Ptr::Bx != Ptr::Si);
    Ok(())
}
