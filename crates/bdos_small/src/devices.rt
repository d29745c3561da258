// The answers to the events of a program.
ghost use Rattle.std.specs.Prelude.{◌≡◌, ℕ, List, IfOk, OnErr, Some};
ghost use Rattle.dialogue.specs.Lawful.{IsLawfulRequest, IsLawfulEvent};
ghost use Rattle.dialogue.specs.declared.request.Event.TheVariants as Event;
ghost use Rattle.dialogue.specs.declared.request.Request.{Request};
ghost use Rattle.bdos_small.specs.Console.{FitsRequest};
ghost use Rattle.bdos_small.specs.Small.{Small, ChangesByReply};
ghost use Rattle.bdos_small.specs.Supply.{supply_of};
ghost use Rattle.bdos_small.specs.Events.{of_system, port_reply, FitsEvent, TakesByReply};

use crate::bdos::Bdos;
use crate::console::Answer;
use crate::disk::Disk;
use crate::input::Input;
use dialogue::{Blocks, Event, Reply, Request};
use std::alloc::{AllocError, Global};
use std::marker::Model;

/// What an event is answered: a reply; that no input, or no port byte, is left for it; or that a call of this function needs a
/// drive that is not there.
#[derive(Drop)]
pub enum EventAnswer {
    Reply(Reply),
    InputEnded,
    NoDrive(u8),
}

/// A small BDOS and ports, seen as what they have left to answer with.
#[derive(Drop)]
pub struct Devices {
    bdos: Bdos,
    ports: Input,
}

impl Model for Devices {
    ghost use Rattle.bdos_small.specs.Supply.{Supply, supply_of};

    ghost Value = { Supply };

    ghost view = { λ d. supply_of d.bdos d.ports };
}

impl Devices {
    ghost use Rattle.bdos_small.specs.Supply.{first_supply};
    ghost use Rattle.bdos_small.specs.Events.{EventAnswered, read_port, event_answer, FitsEvent, TakesByReply};

    /// A BDOS with this disk and this input of its console, and ports that give these bytes.
    pub fn new(disk: Disk, input: Vec<u8>, ports: Vec<u8>) -> Devices
        ensures { result ≡ first_supply disk input.items ports.items }
    {
        Devices {
            bdos: Bdos::new(disk, input),
            ports: Input::new(ports),
        }
    }

    /// The disk of the BDOS.
    pub fn disk(&self) -> &Disk
        ensures { result.now ≡ self.now.system.disk }
    {
        self.bdos.disk()
    }

    /// The answer to an event: a call is the BDOS's to answer; an IN takes the next port byte, and without one left it is as
    /// where input has ended; an OUT is answered 0. Only a reply takes anything, so that after another answer or want of memory the
    /// event can be answered anew. The end of a program is not answered.
    pub fn answer(&mut self, alloc: Global, event: &Event) -> Result<EventAnswer, AllocError>
        requires { IsLawfulEvent event.now }
        ensures answer { IfOk result (λ a. event_answer self.old event.now ≡ Some (record { answer = a; left = self.new })) }
        ensures fits { IfOk result (λ a. FitsEvent event.now a) }
        ensures takes { IfOk result (λ a. TakesByReply a self.old self.new) }
        ensures memory { OnErr result (self.new ≡ self.old) }
    {
        match event {
            Event::Call(request) => self.call(alloc, request),
            Event::In(_) => Ok(self.read_port(alloc)),
            Event::Out(_, _) => Ok(port_reply(alloc, 0)),
            Event::End => unreachable!(),
        }
    }

    // A call of the system.
    fn call(&mut self, alloc: Global, request: &Request) -> Result<EventAnswer, AllocError>
        requires { IsLawfulRequest request.now }
        ensures answer { IfOk result (λ a. event_answer self.old (Event.Call request.now) ≡ Some (record { answer = a; left = self.new })) }
        ensures fits { IfOk result (λ a. FitsEvent (Event.Call request.now) a) }
        ensures takes { IfOk result (λ a. TakesByReply a self.old self.new) }
        ensures memory { OnErr result (self.new ≡ self.old) }
    {
        let answer = self.bdos.answer(alloc, request)?;
        Ok(of_system(request.shape.function, answer))
    }

    // IN: the next byte.
    fn read_port(&mut self, alloc: Global) -> EventAnswer
        ensures answer { ◌≡◌ {A = EventAnswered} (record { answer = result; left = self.new }) (read_port self.old.system self.old.ports) }
        ensures fits { (port : ℕ) → FitsEvent (Event.In port) result }
        ensures takes { TakesByReply result self.old self.new }
    {
        match self.ports.take() {
            None => EventAnswer::InputEnded,
            Some(byte) => port_reply(alloc, byte),
        }
    }
}

// The answer of the system to a call of a function.
fn of_system(function: u8, answer: Answer) -> EventAnswer
    ensures answer { result ≡ of_system function answer }
    ensures fits { (q : Request) → FitsRequest q answer → FitsEvent (Event.Call q) result }
    ensures takes { (before after : Small) (ports : List ℕ) → ChangesByReply answer before after → TakesByReply result (supply_of before ports) (supply_of after ports) }
{
    match answer {
        Answer::Reply(reply) => EventAnswer::Reply(reply),
        Answer::InputEnded => EventAnswer::InputEnded,
        Answer::NoDrive => EventAnswer::NoDrive(function),
    }
}

// The reply of a port.
fn port_reply(alloc: Global, byte: u8) -> EventAnswer
    ensures { result ≡ port_reply byte }
{
    EventAnswer::Reply(Reply {
        answer: u16::from(byte),
        writes: Blocks::from_vec(Vec::new(alloc)),
    })
}
