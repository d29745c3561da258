// The answers to events: ports that give their bytes in order, beside a BDOS that keeps its input.
ghost use Rattle.dialogue.specs.Lawful.{IsLawfulEvent};

use crate::memory::request;
use bdos_small::{Devices, Disk, EventAnswer};
use dialogue::Event;
use std::alloc::{AllocError, Global};

/// What is asked: a byte of a port, that a port takes a byte, or a call of a function.
#[derive(Clone, Copy)]
enum Asked {
    In(u8),
    Out(u8, u8),
    Call(u8),
}

/// What is told: an answer that writes nothing, one that writes, that input has ended, or that a function has no drive.
#[derive(Clone, Copy, PartialEq, Eq)]
enum Told {
    Answer(u16),
    Writes,
    InputEnded,
    NoDrive(u8),
}

/// The answer to an event.
fn answer_to(alloc: Global, devices: &mut Devices, event: &Event) -> Result<Told, AllocError>
    requires { IsLawfulEvent event.now }
{
    match devices.answer(alloc, event)? {
        EventAnswer::Reply(reply) if reply.writes.as_slice().is_empty() => Ok(Told::Answer(
            reply.answer,
        )),
        EventAnswer::Reply(_) => Ok(Told::Writes),
        EventAnswer::InputEnded => Ok(Told::InputEnded),
        EventAnswer::NoDrive(function) => Ok(Told::NoDrive(function)),
    }
}

/// The answer to what is asked; none where a function has no request.
fn ask(alloc: Global, devices: &mut Devices, asked: Asked) -> Result<Option<Told>, AllocError> {
    let told = match asked {
        Asked::In(port) => answer_to(alloc, devices, &Event::In(port))?,
        Asked::Out(port, byte) => answer_to(alloc, devices, &Event::Out(port, byte))?,
        Asked::Call(function) => match request(alloc, function, 0, 5)? {
            Some(request) => answer_to(alloc, devices, &Event::Call(request))?,
            None => return Ok(None),
        },
    };
    Ok(Some(told))
}

/// Whether devices with an A for the console and these bytes for the ports tell what the rows have, one after the other.
fn tell(alloc: Global, ports: &[u8], rows: &[(Asked, Told)]) -> Result<bool, AllocError> {
    let input = Vec::from_slice(alloc, b"A")?;
    let ports = Vec::from_slice(alloc, ports)?;
    let mut devices = Devices::new(Disk::empty(alloc), input, ports);
    let mut all = true;
    for (asked, told) in rows {
        all &= ask(alloc, &mut devices, *asked)? == Some(*told);
    }
    Ok(all)
}

static IN_ORDER: [(Asked, Told); 7] = [
    (Asked::In(7), Told::Answer(0x12)),
    (Asked::Out(7, 0x99), Told::Answer(0)),
    (Asked::Call(1), Told::Answer(0x41)),
    (Asked::In(8), Told::Answer(0xFF)),
    (Asked::In(7), Told::InputEnded),
    (Asked::In(7), Told::InputEnded),
    (Asked::Call(11), Told::Answer(0)),
];

// Which of the answers that are no reply an event gets; neither takes what waits at the console.
static NO_REPLIES: [(Asked, Told); 3] = [
    (Asked::In(7), Told::InputEnded),
    (Asked::Call(15), Told::NoDrive(15)),
    (Asked::Call(11), Told::Answer(0xFF)),
];

#[test]
fn ports_give_their_bytes_in_order(rt: HostRuntime) -> Result<(), AllocError> {
    assert!(rt; tell(rt.alloc(), &[0x12, 0xFF], &IN_ORDER)?);
    assert!(rt; tell(rt.alloc(), &[], &NO_REPLIES)?);
    Ok(())
}
