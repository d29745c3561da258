// The disk file that is read.
ghost use Rattle.std.specs.Prelude.{◌≡◌, true, ◌+◌, ◌*◌, ◌^◌, ◌<◌, ◌≤◌, ◌++◌, None, length, drop, MatchResult, IfOk};
ghost use Rattle.std.specs.List.{All};
ghost use Rattle.bdos_small.specs.Names.{is_after, highest};
ghost use Rattle.bdos_small.specs.Spelled.{BreaksAt};
ghost use Rattle.bdos_small.specs.Disks.{IsDisk};
ghost use Rattle.bdos_small.specs.DiskFile.{disk_mark, word_bytes, files_bytes, all_records, disk_file, IsBadAt};
ghost use Rattle.bdos_small.specs.Reading.{AreFiles, IsNextFile, StopsBy, stop_after, fault_of, IsDiskFaultOf};

use crate::disk::{Disk, MOST_FILES, MOST_RECORDS};
use crate::fault::DiskFault;
use crate::file::File;
use crate::kept::MARK;
use crate::name::{NAME_LENGTH, Name};
use crate::record::{RECORD_LENGTH, Record};
use crate::spelling::read_name;
use std::alloc::{AllocError, Global};

/// Why a reading stops: at a place in the bytes, or because memory ran out.
#[derive(Clone, Copy)]
enum Stop {
    At(usize),
    Memory,
}

impl From<AllocError> for Stop {
    ghost use Rattle.std.specs.Prelude.{◌≡◌};
    ghost use Rattle.bdos_small.specs.declared.reading.Stop.TheVariants.{Memory};

    ghost from_gives = { λ _ stop. stop ≡ Memory };

    fn from(_error: AllocError) -> Stop {
        Stop::Memory
    }
}

impl Stop {
    // The same behind so many bytes.
    fn after(self, count: usize) -> Stop
        requires { StopsBy (λ k. count + k < 2 ^ 64) self }
        ensures { result ≡ stop_after count self }
    {
        match self {
            Stop::At(place) => Stop::At(count + place),
            Stop::Memory => Stop::Memory,
        }
    }

    // What is told of it.
    fn fault(self) -> DiskFault
        requires { StopsBy (λ k. k < 2 ^ 32) self }
        ensures { result ≡ fault_of self }
    {
        match self {
            Stop::At(place) => DiskFault::Bad(place as u32),
            Stop::Memory => DiskFault::Memory,
        }
    }
}

impl Disk {
    /// The disk of a disk file, as `Disk::write` gives it.
    pub fn read(alloc: Global, bytes: &[u8]) -> Result<Disk, DiskFault>
        ensures { MatchResult result (λ d. IsDisk d × (bytes.now ≡ disk_file d)) (IsDiskFaultOf bytes.now) }
    {
        match read_disk(alloc, bytes) {
            Ok(disk) => Ok(disk),
            Err(stop) => Err(stop.fault()),
        }
    }
}

// A whole disk file.
fn read_disk(alloc: Global, bytes: &[u8]) -> Result<Disk, Stop>
    ensures { MatchResult result (λ d. IsDisk d × (bytes.now ≡ disk_file d)) (StopsBy (IsBadAt bytes.now)) }
{
    if let Err(place) = read_mark(bytes) {
        return Err(Stop::At(place));
    }
    let count = match read_word(&bytes[8..], MOST_FILES) {
        Ok(count) => count,
        Err(place) => return Err(Stop::At(8 + place)),
    };
    let (files, used) = match read_files(alloc, &bytes[10..], count) {
        Ok(read) => read,
        Err(stop) => return Err(stop.after(10)),
    };
    let end = 10 + used;
    if end < bytes.len() {
        return Err(Stop::At(end));
    }
    Ok(Disk { files })
}

// What a disk file begins with.
fn read_mark(bytes: &[u8]) -> Result<(), usize>
    ensures { MatchResult result
        (λ _. (bytes.now ≡ disk_mark ++ drop 8 bytes.now) × (8 ≤ length bytes.now))
        (λ k. BreaksAt {V = Unit {0}} (λ _. Unit {0}) (λ _. disk_mark) bytes.now k) }
{
    for place in 0..MARK.len() {
        let Some(byte) = bytes.get(place) else {
            return Err(place);
        };
        if *byte != MARK[place] {
            return Err(place);
        }
    }
    Ok(())
}

// A number of at most `most` as two bytes, the low one first.
fn read_word(bytes: &[u8], most: usize) -> Result<usize, usize>
    requires { most < 0x10000 }
    ensures { MatchResult result
        (λ n. (n ≤ most) × (bytes.now ≡ word_bytes n ++ drop 2 bytes.now) × (2 ≤ length bytes.now))
        (λ k. BreaksAt (λ n. n ≤ most) word_bytes bytes.now k) }
{
    let Some(low) = bytes.first() else {
        return Err(0);
    };
    let low = usize::from(*low);
    if low > most {
        return Err(0);
    }
    let Some(high) = bytes.get(1) else {
        return Err(1);
    };
    let number = low + 256 * usize::from(*high);
    if number > most { Err(1) } else { Ok(number) }
}

// Files in ascending order of their names, with at most 8,000 records in all, and the number of their bytes.
fn read_files(alloc: Global, bytes: &[u8], count: usize) -> Result<(Vec<File>, usize), Stop>
    requires { count ≤ 64 }
    ensures { MatchResult result
        (λ p. AreFiles None count 8000 p.0.items × (bytes.now ≡ files_bytes p.0.items ++ drop p.1 bytes.now) × (p.1 ≤ length bytes.now))
        (StopsBy (BreaksAt (AreFiles None count 8000) files_bytes bytes.now)) }
{
    let mut files = Vec::new(alloc);
    let mut last = None;
    let mut room = MOST_RECORDS;
    let mut at = 0;
    for index in 0..count {
        let after = count - 1 - index;
        let (file, used) = match read_file(alloc, &bytes[at..], &last, after, room) {
            Ok(next) => next,
            Err(stop) => return Err(stop.after(at)),
        };
        last = Some(file.name());
        room -= file.records().len();
        at += used;
        files.push(file).map_err(AllocError::from)?;
    }
    Ok((files, at))
}

// A file that comes after `last`, has `after` more files behind it and at most `room` records; and the number of its bytes.
fn read_file(
    alloc: Global,
    bytes: &[u8],
    last: &Option<Name>,
    after: usize,
    room: usize,
) -> Result<(File, usize), Stop>
    requires few { after ≤ 63 }
    requires small { room ≤ 8000 }
    requires named { is_after last.now (highest after) ≡ true }
    ensures { MatchResult result
        (λ p. IsNextFile last.now after room bytes.now p.0 p.1)
        (StopsBy (BreaksAt (AreFiles last.now (after + 1) room) files_bytes bytes.now)) }
{
    let name = match read_name(bytes, last, after) {
        Ok(name) => name,
        Err(place) => return Err(Stop::At(place)),
    };
    let count = match read_word(&bytes[NAME_LENGTH..], room) {
        Ok(count) => count,
        Err(place) => return Err(Stop::At(NAME_LENGTH + place)),
    };
    let start = NAME_LENGTH + 2;
    let end = start + count * RECORD_LENGTH;
    if bytes.len() < end {
        return Err(Stop::At(bytes.len()));
    }
    let records = read_records(alloc, &bytes[start..end], count)?;
    Ok((File { name, records }, end))
}

// So many records, which the bytes are.
fn read_records(alloc: Global, bytes: &[u8], count: usize) -> Result<Vec<Record>, AllocError>
    requires whole { length bytes.now ≡ count * 128 }
    requires few { count ≤ 8000 }
    ensures bytes { IfOk result (λ v. all_records v.items ≡ bytes.now) }
    ensures count { IfOk result (λ v. length v.items ≡ count) }
    ensures records { IfOk result (λ v. All (λ r. length r ≡ 128) v.items) }
{
    let mut records = Vec::new(alloc);
    for k in 0..count {
        let start = k * RECORD_LENGTH;
        records.push(Record::of(&bytes[start..start + RECORD_LENGTH]))?;
    }
    Ok(records)
}
