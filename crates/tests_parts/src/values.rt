// Sets of registers and flags, and the flags that a byte has.
use cells::{Cond, Flags, Keep, Part};

#[test]
fn sets(rt: HostRuntime) {
    let registers = Keep::none().with(Part::A).with(Part::L).with(Part::A);
    let flags = Keep::none().with(Part::S).with(Part::Cy);
    let both = registers.join(flags);
    for (part, in_registers, in_flags, in_both) in [
        (Part::A, true, false, true),
        (Part::B, false, false, false),
        (Part::L, true, false, true),
        (Part::S, false, true, true),
        (Part::Ac, false, false, false),
        (Part::Cy, false, true, true),
    ] {
        assert!(rt;
            [
                Keep::none().has(part),
                Keep::all().has(part),
                registers.has(part),
                flags.has(part),
                both.has(part),
            ] == [false, true, in_registers, in_flags, in_both]
        );
    }
    assert!(rt; registers == Keep::none().with(Part::L).with(Part::A) && registers != flags);
}

/// Each condition, the bit of its flag in the byte of PUSH PSW, and the value of that flag where it holds.
#[test]
fn conditions(rt: HostRuntime) {
    for (cond, bit, value) in [
        (Cond::Nz, 0x40, false),
        (Cond::Z, 0x40, true),
        (Cond::Nc, 0x01, false),
        (Cond::C, 0x01, true),
        (Cond::Po, 0x04, false),
        (Cond::Pe, 0x04, true),
        (Cond::P, 0x80, false),
        (Cond::M, 0x80, true),
    ] {
        let there = Flags::of_byte(bit).holds(cond);
        let others = Flags::of_byte(bit ^ 0xFF).holds(cond);
        let unknown = Flags::unknown().holds(cond);
        assert!(rt; [there, others, unknown] == [Some(value), Some(!value), None]);
    }
}

#[test]
fn flag_bytes(rt: HostRuntime) {
    for (byte, want) in [
        (0x00, [false, false, false, false, false]),
        (0x2A, [false, false, false, false, false]),
        (0x80, [true, false, false, false, false]),
        (0x40, [false, true, false, false, false]),
        (0x10, [false, false, true, false, false]),
        (0x04, [false, false, false, true, false]),
        (0x01, [false, false, false, false, true]),
        (0xD7, [true, true, true, true, true]),
    ] {
        let flags = Flags::of_byte(byte);
        let [s, z, ac, p, cy] = want;
        assert!(rt;
            [flags.s, flags.z, flags.ac, flags.p, flags.cy]
                == [Some(s), Some(z), Some(ac), Some(p), Some(cy)]
        );
    }
}
