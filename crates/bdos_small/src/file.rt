// Files.
ghost use Rattle.std.specs.Prelude.{◌≡◌, ◌<◌, OnOk, OnErr};
ghost use Rattle.bdos_small.specs.Disks.{written_at};

use crate::name::Name;
use crate::record::Record;
use std::alloc::AllocError;
use std::marker::Model;

/// A file of a disk: its name and its records.
#[derive(Drop)]
pub struct File {
    pub(crate) name: Name,
    pub(crate) records: Vec<Record>,
}

impl Model for File {
    ghost use Rattle.bdos_small.specs.Stored.{Stored};

    ghost Value = { Stored };

    ghost view = { λ f. record { name = f.name; records = f.records.items } };
}

impl File {
    /// Its name.
    pub fn name(&self) -> Name
        ensures { result ≡ self.now.name }
    {
        self.name
    }

    /// Its records, in their order.
    pub fn records(&self) -> &[Record]
        ensures { result.now ≡ self.now.records }
    {
        self.records.as_slice()
    }

    /// Writes a record at a position; where the file is shorter, records of zeros stand before it.
    pub(crate) fn write(&mut self, position: usize, written: Record) -> Result<(), AllocError>
        requires { position < 0x10000 }
        ensures ok { OnOk result (self.new ≡ record { name = self.old.name; records = written_at position written self.old.records }) }
        ensures err { OnErr result (self.new ≡ self.old) }
    {
        let records = &mut self.records;
        if records.len() <= position {
            records.resize(position + 1, Record::zeros())?;
        }
        records[position] = written;
        Ok(())
    }
}
