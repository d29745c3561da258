// The machine over the cells of a HEX file.
ghost use Rattle.std.specs.Prelude.{◌≡◌, None, Some, true, IfOk, IfSome, Ok, length};
ghost use Rattle.dialogue.specs.Fits.{waits_in};
ghost use Rattle.dialogue.specs.Lawful.{IsLawfulEvent};
ghost use Rattle.dialogue.specs.Calls.{stepped, replied, IsOpen, IsStepTold, IsTaken};
ghost use Rattle.asm80_types.specs.Program.{is_top};
ghost use Rattle.cpu80.specs.Start.{address_of};
ghost use Rattle.cpu80.specs.Step.{step_untagged, replied_untagged};
ghost use Rattle.cpu80.specs.Standing.{status_of};
ghost use Rattle.i80_bytes.specs.Start.{start_of_bytes};
ghost use Rattle.i80_bytes.specs.Fetch.{fetch_of_bytes};
ghost use Rattle.i80_bytes.specs.Standing.{byte_standing, IsByteMachine};

use crate::fetch::Bytes;
use crate::start::start_memory;
use cells::Place;
use cpu80::{Untagged80, UntaggedStep, start_processor};
use dialogue::{Event, Page, Reply};
use hex_file::HexFile;
use std::alloc::{AllocError, Global};

/// The untagged 8080 that takes its instructions from the bytes of memory.
#[derive(Drop)]
pub struct Byte80 {
    machine: Untagged80,
}

impl Byte80 {
    /// The machine as the cells of a HEX file begin: at 100H, with SP at T-2, where T is the top. Memory is the fill, which has a byte for
    /// each of the 65,536 addresses, over it the cells, and over them the page from 5CH up, T at 6, and zeros at T-2 and T-1; A, B, C, D,
    /// E, H and L are bytes 8 to 14 of the fill, and S, Z, AC, P and CY are bits 0 to 4 of its byte 15.
    pub fn new(
        alloc: Global,
        hex: &HexFile,
        top: u16,
        page: &Page,
        fill: &[u8],
    ) -> Result<Byte80, AllocError>
        requires top { is_top top ≡ true }
        requires fill { length fill.now ≡ 0x10000 }
        ensures state { IfOk result (λ c. (byte_standing c).state ≡ start_of_bytes hex.now top page.now fill.now) }
        ensures idle { IfOk result (λ c. (byte_standing c).said ≡ None) }
        ensures machine { IfOk result IsByteMachine }
    {
        let memory = start_memory(alloc, hex.cells(), top, page.bytes(), fill)?;
        let processor = start_processor(top, fill, memory);
        Ok(Byte80 {
            machine: Untagged80::new(processor),
        })
    }

    /// One instruction of the bytes of memory. While the machine asks it answers `Asked`, and after the end `Ended`; these change nothing,
    /// nor does a stop: `NoInstruction` with the address at which no encoding stands, `OddCall` with the function of a call that has no
    /// shape. `Untagged80::step` tells what the choice has.
    pub fn step(&mut self, choice: u128) -> UntaggedStep
        ensures step { (status_of result, byte_standing self.new) ≡ stepped (step_untagged fetch_of_bytes) (byte_standing self.old) choice }
        ensures told { (byte_standing self.old).said ≡ None → IsStepTold (step_untagged fetch_of_bytes (byte_standing self.old).state choice) (status_of result) (byte_standing self.old).state (byte_standing self.new) }
        ensures said { IsOpen (status_of result) (byte_standing self.new).said }
        ensures machine { IsByteMachine self.old → IsByteMachine self.new }
    {
        self.machine.step(&Bytes, choice)
    }

    /// What waits for its reply, a call with the memory that it reads; None where the machine does not ask, and then no memory is
    /// taken.
    pub fn asked(&self, alloc: Global) -> Result<Option<Event>, AllocError>
        ensures event { IfOk result (λ r. r ≡ waits_in (byte_standing self.now).said) }
        ensures said { IfOk result (λ r. IfSome r (λ e. Some e ≡ (byte_standing self.now).said)) }
        ensures lawful { IfOk result (λ r. IfSome r (λ e. IsLawfulEvent e)) }
        ensures idle { waits_in (byte_standing self.now).said ≡ None → result ≡ Ok None }
    {
        self.machine.asked(alloc)
    }

    /// Takes a reply to what was asked. False where the machine does not ask or the reply does not fit; then nothing changes.
    /// `Untagged80::reply` tells what the choice has.
    pub fn reply(&mut self, reply: &Reply, choice: u128) -> bool
        ensures reply { IsByteMachine self.old → (result, byte_standing self.new) ≡ replied (replied_untagged fetch_of_bytes) (byte_standing self.old) reply.now choice }
        ensures taken { (e : Event) → IsByteMachine self.old → (byte_standing self.old).said ≡ Some e → IsTaken (replied_untagged fetch_of_bytes) e result reply.now choice (byte_standing self.old).state (byte_standing self.new) }
        ensures machine { IsByteMachine self.old → IsByteMachine self.new }
    {
        self.machine.reply(reply, choice)
    }

    /// The address of the instruction that comes next; 0 where the return of a jump to 5 has gone there.
    pub fn pc(&self) -> u16
        ensures { result ≡ address_of (byte_standing self.now).state.place }
    {
        match self.machine.processor().place {
            Place::At(at) => at,
            Place::Exit => 0,
        }
    }
}
