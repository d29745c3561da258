// A host that gives and takes one byte at a time.

use host::{Host, HostFault};

/// Another host, of which each call is given the first byte alone of what it may read into, append or say.
#[derive(Drop)]
pub struct Sparing<H> {
    pub host: H,
}

impl<H: Host> Host for Sparing<H> {
    ghost state = { λ sparing. H.state sparing.host };

    fn read(&mut self, name: &str, at: u64, into: &mut [u8]) -> Result<usize, HostFault> {
        self.host.read(name, at, &mut into[..1])
    }

    fn begin(&mut self, name: &str) -> Result<(), HostFault> {
        self.host.begin(name)
    }

    fn append(&mut self, name: &str, bytes: &[u8]) -> Result<usize, HostFault> {
        self.host.append(name, &bytes[..1])
    }

    fn say(&mut self, bytes: &[u8]) -> Result<usize, HostFault> {
        self.host.say(&bytes[..1])
    }
}
