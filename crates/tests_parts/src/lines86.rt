// Each form of statement with the line that the format gives it, in both directions, and the size of some.
use asm86::{Jump, Label, Line86, Stmt86, Value16, code_size, write_line};
use asm86_line_reader::read_line;
use i86::{AluOp, Count, Instr86, Operand8, Operand16, Ptr, Reg8, Reg16, Rotate, StackReg};
use std::alloc::Global;

// Statements and their lines without CR LF.
#[rattlefmt::skip]
static FORMS: [(Stmt86, &str); 54] = [
    (Stmt86::Cseg, "\tCSEG"),
    (Stmt86::Dseg, "\tDSEG"),
    (Stmt86::Org(0xEFFF), "\tORG\t0EFFFH"),
    (Stmt86::Rb(1), "\tRB\t00001H"),
    (Stmt86::Db(0xA7), "\tDB\t0A7H"),
    (Stmt86::Dw(Value16::Num(0x12AB)), "\tDW\t012ABH"),
    (Stmt86::Dw(Value16::Offset(Label::At(0x10C))), "\tDW\tOFFSET L010C"),
    (Stmt86::Mark(Label::At(0x100)), "L0100:"),
    (Stmt86::Mark(Label::Skip(0x9FE)), "K09FE:"),
    (Stmt86::Mark(Label::User(0xBEEF)), "UBEEF:"),
    (Stmt86::Mark(Label::Sys), "X_SYS:"),
    (Stmt86::MovOffset(Reg16::Si, Label::End), "\tMOV\tSI,OFFSET X_END"),
    (Stmt86::Jmp(Label::End), "\tJMP\tX_END"),
    (Stmt86::Jmps(Label::At(0x102)), "\tJMPS\tL0102"),
    (Stmt86::Jcc(Jump::Jnz, Label::Skip(0x104)), "\tJNZ\tK0104"),
    (Stmt86::Call(Label::Sys), "\tCALL\tX_SYS"),
    (Stmt86::EndText, "\tEND"),
    (Stmt86::Run(Instr86::MovReg8(Reg8::Bl, Operand8::Reg(Reg8::Al))), "\tMOV\tBL,AL"),
    (Stmt86::Run(Instr86::MovReg8(Reg8::Al, Operand8::Mem(Ptr::Si))), "\tMOV\tAL,BYTE PTR [SI]"),
    (Stmt86::Run(Instr86::MovMem8(Ptr::Bx, Reg8::Ch)), "\tMOV\tBYTE PTR [BX],CH"),
    (Stmt86::Run(Instr86::MovAlDirect(0x5C)), "\tMOV\tAL,BYTE PTR .0005CH"),
    (Stmt86::Run(Instr86::MovDirectAl(0x80)), "\tMOV\tBYTE PTR .00080H,AL"),
    (Stmt86::Run(Instr86::MovNum8(Reg8::Cl, 2)), "\tMOV\tCL,002H"),
    (Stmt86::Run(Instr86::MovNum16(Reg16::Si, 0xF000)), "\tMOV\tSI,0F000H"),
    (Stmt86::Run(Instr86::MovMemNum(Ptr::Bx, 0x41)), "\tMOV\tBYTE PTR [BX],041H"),
    (Stmt86::Run(Instr86::MovReg16(Reg16::Sp, Operand16::Reg(Reg16::Si))), "\tMOV\tSP,SI"),
    (Stmt86::Run(Instr86::MovReg16(Reg16::Bx, Operand16::Direct(0x200))), "\tMOV\tBX,WORD PTR .00200H"),
    (Stmt86::Run(Instr86::MovDirect16(6, Reg16::Si)), "\tMOV\tWORD PTR .00006H,SI"),
    (Stmt86::Run(Instr86::MovAxDs), "\tMOV\tAX,DS"),
    (Stmt86::Run(Instr86::MovSsAx), "\tMOV\tSS,AX"),
    (Stmt86::Run(Instr86::Alu(AluOp::Sbb, Operand8::Mem(Ptr::Bx))), "\tSBB\tAL,BYTE PTR [BX]"),
    (Stmt86::Run(Instr86::AluNum(AluOp::Cmp, 0xD)), "\tCMP\tAL,00DH"),
    (Stmt86::Run(Instr86::OrClCl), "\tOR\tCL,CL"),
    (Stmt86::Run(Instr86::Add16(Reg16::Bx, Reg16::Dx)), "\tADD\tBX,DX"),
    (Stmt86::Run(Instr86::Count8(Count::Inc, Operand8::Reg(Reg8::Dh))), "\tINC\tDH"),
    (Stmt86::Run(Instr86::Count16(Count::Dec, Reg16::Cx)), "\tDEC\tCX"),
    (Stmt86::Run(Instr86::Push(StackReg::Ax)), "\tPUSH\tAX"),
    (Stmt86::Run(Instr86::Pop(StackReg::Si)), "\tPOP\tSI"),
    (Stmt86::Run(Instr86::Xchg8(Reg8::Al, Reg8::Ah)), "\tXCHG\tAL,AH"),
    (Stmt86::Run(Instr86::Xchg16(Reg16::Bx, Reg16::Dx)), "\tXCHG\tBX,DX"),
    (Stmt86::Run(Instr86::Rotate8(Rotate::Ror, Reg8::Al)), "\tROR\tAL,1"),
    (Stmt86::Run(Instr86::Rotate16(Rotate::Rcr, Reg16::Si)), "\tRCR\tSI,1"),
    (Stmt86::Run(Instr86::Not8(Reg8::Al)), "\tNOT\tAL"),
    (Stmt86::Run(Instr86::Daa), "\tDAA"),
    (Stmt86::Run(Instr86::Sahf), "\tSAHF"),
    (Stmt86::Run(Instr86::Lahf), "\tLAHF"),
    (Stmt86::Run(Instr86::Cmc), "\tCMC"),
    (Stmt86::Run(Instr86::Stc), "\tSTC"),
    (Stmt86::Run(Instr86::Nop), "\tNOP"),
    (Stmt86::Run(Instr86::JmpBx), "\tJMP\tBX"),
    (Stmt86::Run(Instr86::Ret), "\tRET"),
    (Stmt86::Run(Instr86::Int224), "\tINT\t224"),
    (Stmt86::Run(Instr86::InAl(0x10)), "\tIN\tAL,010H"),
    (Stmt86::Run(Instr86::OutAl(0xFF)), "\tOUT\t0FFH,AL"),
];

// Whether a statement is written as this line, and read from it.
fn has_line(alloc: Global, stmt: Stmt86, text: &str) -> bool {
    let written = write_line(stmt);
    let [line @ .., b'\r', b'\n'] = written.as_slice() else {
        return false;
    };
    match read_line(alloc, line) {
        Ok(found) => line == text.as_bytes() && found.as_slice() == [stmt].as_slice(),
        Err(_) => false,
    }
}

#[test]
fn each_form_has_its_line_and_reads_back(rt: HostRuntime) {
    for (stmt, text) in &FORMS {
        assert!(rt; has_line(rt.alloc(), *stmt, *text), "{text}");
    }
}

#[test]
fn code_has_the_size_of_its_statements(rt: HostRuntime) {
    let lines = [
        Line86 {
            line: 1,
            stmt: Stmt86::Mark(Label::At(0x102)),
        },
        Line86 {
            line: 2,
            stmt: Stmt86::Run(Instr86::MovNum8(Reg8::Dl, 0x41)),
        },
        Line86 {
            line: 3,
            stmt: Stmt86::Call(Label::Sys),
        },
    ];
    assert!(rt; code_size(&lines) == 5);
}
