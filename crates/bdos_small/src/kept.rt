// The disk file that is written.
ghost use Rattle.std.specs.Prelude.{◌≡◌, ℕ, List, ◌<◌, ◌++◌, length, IfOk, OnOk};
ghost use Rattle.bdos_small.specs.Disks.{IsDisk, records_in};
ghost use Rattle.bdos_small.specs.DiskFile.{word_bytes, all_records, file_bytes, files_bytes, disk_file, IsBadAt};
ghost use Rattle.bdos_small.specs.Stored.{Stored};

use crate::disk::Disk;
use crate::file::File;
use crate::record::Record;
use std::alloc::{AllocError, Global};

/// What a disk file begins with.
pub const MARK: &[u8; 8] = b"XLTDISK1";

impl Disk {
    /// The disk file: `XLTDISK1`; the number of files as two bytes, the low one first; then for each file its name, the number of its
    /// records as two bytes, and its records.
    pub fn write(&self, alloc: Global) -> Result<Vec<u8>, AllocError>
        ensures file { IfOk result (λ bytes. bytes.items ≡ disk_file self.now) }
        ensures disk { IsDisk self.now }
    {
        let files = self.files();
        let mut bytes = Vec::from_slice(alloc, MARK)?;
        push_word(&mut bytes, files.len() as u16)?;
        push_files(&mut bytes, files)?;
        Ok(bytes)
    }
}

/// A law: a disk is told by its disk file, and no disk's file is refused. So what `Disk::write` gives is read as that disk.
pub fn disks_read_back()
    ensures told { (d c : List Stored) → IsDisk d → IsDisk c → disk_file d ≡ disk_file c → d ≡ c }
    ensures taken { (d : List Stored) (k : ℕ) → IsDisk d → IsBadAt (disk_file d) k → ⊥ }
{}

// A number as two bytes.
fn push_word(bytes: &mut Vec<u8>, number: u16) -> Result<(), AllocError>
    ensures { OnOk result (bytes.new.items ≡ bytes.old.items ++ word_bytes number) }
{
    bytes.extend_from_slice(&[(number % 256) as u8, (number / 256) as u8])
}

// The bytes of files.
fn push_files(bytes: &mut Vec<u8>, files: &[File]) -> Result<(), AllocError>
    requires { records_in files.now < 0x10000 }
    ensures { OnOk result (bytes.new.items ≡ bytes.old.items ++ files_bytes files.now) }
{
    for file in files {
        push_file(bytes, file)?;
    }
    Ok(())
}

// The bytes of a file.
fn push_file(bytes: &mut Vec<u8>, file: &File) -> Result<(), AllocError>
    requires { length file.now.records < 0x10000 }
    ensures { OnOk result (bytes.new.items ≡ bytes.old.items ++ file_bytes file.now) }
{
    bytes.extend_from_slice(file.name().bytes())?;
    push_word(bytes, file.records().len() as u16)?;
    push_records(bytes, file.records())
}

// The bytes of records.
fn push_records(bytes: &mut Vec<u8>, records: &[Record]) -> Result<(), AllocError>
    ensures { OnOk result (bytes.new.items ≡ bytes.old.items ++ all_records records.now) }
{
    for record in records {
        bytes.extend_from_slice(record.bytes())?;
    }
    Ok(())
}
