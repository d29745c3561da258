// Instructions that the type has and the 8080 has not.
use i80::{Instr80, Pair, Src, Word, well_formed};

#[test]
fn not_of_the_8080(rt: HostRuntime) {
    for instruction in [
        Instr80::Mov(Src::Mem, Src::Mem),
        Instr80::Ldax(Pair::H),
        Instr80::Ldax(Pair::Sp),
        Instr80::Stax(Pair::H),
        Instr80::Stax(Pair::Sp),
        Instr80::Lxi(Pair::Sp, Word::Code(0x103)),
    ] {
        assert!(rt; !well_formed(instruction));
    }
}
