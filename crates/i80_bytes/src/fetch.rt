// What the machine takes its instructions from.
ghost use Rattle.i80_bytes.specs.Fetch.{fetch_of_bytes};
ghost use Rattle.i80_bytes.specs.InMemory.{IsFetchOfBytes};

use crate::decoding::decode80;
use cpu80::{Fetch80, Processor};
use i80::Instr80;

/// The bytes of memory, whatever put them there.
pub struct Bytes;

impl Fetch80 for Bytes {
    ghost fetch = { λ _. fetch_of_bytes };

    fn fetch(&self, processor: &Processor, at: u16) -> Option<Instr80> {
        let second = at.wrapping_add(1);
        let bytes = [
            processor.memory.get(at),
            processor.memory.get(second),
            processor.memory.get(second.wrapping_add(1)),
        ];
        match decode80(&bytes) {
            Some((instr, _)) => Some(instr),
            None => None,
        }
    }
}

/// A law: in each state, and at each address, the machine takes the instruction whose encoding the bytes of memory begin with there, and
/// none where they begin with no encoding.
pub fn memory_is_fetched()
    ensures { IsFetchOfBytes fetch_of_bytes }
{}
