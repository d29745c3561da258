// Both machines with the program, which is run to its end by `cases_machines` and by the commands: `cpu80` and `cpu86`.
ghost use Rattle.std.specs.Prelude.{◌≡◌, length};

use crate::calls::nothing;
use crate::source::program;
use crate::texts::written_image;
use asm80_values::Program80;
use asm86::Image86;
use cells::Place;
use cpu80::{Cpu80, Step80};
use cpu86::{Cpu86, Start86, Step86};
use dialogue::Page;
use std::alloc::Global;
use std::process::Abort;
use std::test::Fail;

const START: Start86 = Start86 {
    ax: 0,
    cx: 0,
    dx: 0,
    bx: 0,
    sp: 0,
    si: 0,
    ds: 0,
    ss: 1,
    flags: 0,
};

// MVI C,2 stands first, and asks nothing.
#[test]
fn the_8080_steps(rt: HostRuntime) -> Result<(), Fail> {
    let program = program(rt.alloc())?;
    assert_80_steps(&rt, rt.alloc(), &program)
}

fn assert_80_steps(rt: &impl Abort, alloc: Global, program: &Program80) -> Result<(), Fail> {
    let page = Page::of_tail(b"").ok_or("a page")?;
    let mut cpu = Cpu80::new(alloc, program, &page)?;
    assert!(rt; cpu.step(program) == Step80::Ran && cpu.place() == Place::At(0x102));
    assert!(rt; !cpu.reply(&nothing(alloc)));
    assert!(rt; cpu.asked(alloc)?.is_none());
    Ok(())
}

// MOV SI,0F000H stands first, three bytes, and asks nothing.
#[test]
fn the_8086_steps(rt: HostRuntime) -> Result<(), Fail> {
    let image = written_image(rt.alloc())?;
    assert_86_steps(&rt, rt.alloc(), &image)
}

fn assert_86_steps(rt: &impl Abort, alloc: Global, image: &Image86) -> Result<(), Fail> {
    let fill = vec![in alloc; 0; 0x1_0000]?;
    assert_86_steps_over(rt, alloc, image, fill.as_slice())
}

fn assert_86_steps_over(
    rt: &impl Abort,
    alloc: Global,
    image: &Image86,
    fill: &[u8],
) -> Result<(), Fail>
    requires { length fill.now ≡ 0x10000 }
{
    let page = Page::of_tail(b"").ok_or("a page")?;
    let mut cpu = Cpu86::new(alloc, image, START, &page, fill)?;
    assert!(rt; cpu.step(0) == Step86::Ran && cpu.ip() == 3);
    assert!(rt; !cpu.reply(&nothing(alloc), 0));
    assert!(rt; cpu.asked(alloc)?.is_none());
    Ok(())
}
