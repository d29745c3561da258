// The functions that read and write records (CP/M 2.2 Operating System Manual, section 5.3, "BDOS Functions").
ghost use Rattle.std.specs.Prelude.{◌≡◌, ◌+◌, ◌≤◌, ◌<◌, length, slice_index, IfOk, OnErr};
ghost use Rattle.bdos_small.specs.Disks.{IsDisk};
ghost use Rattle.bdos_small.specs.Calls.{fcb_of, block_read};
ghost use Rattle.bdos_small.specs.Files.{Changed, read_at, read_sequential, read_random, write_at, write_sequential, write_random, file_size, set_random_record};

use crate::disk::{Disk, MOST_RECORDS};
use crate::fcb::{byte_at, fields_at, position_in, position_of, random_bytes, random_position};
use crate::name::Name;
use crate::replies::{block_at, telling, writing, writing_both};
use dialogue::{Reply, Request};
use std::alloc::{AllocError, Global};

/// The answer of a read where no record stands, of a write for which there is no file or no room, and of a random position past
/// the last that there may be.
const NO_RECORD: u16 = 1;

const NO_ROOM: u16 = 2;

const PAST_THE_DISK: u16 = 6;

/// Function 20, read sequential.
pub fn read_sequential(alloc: Global, disk: &Disk, request: &Request) -> Result<Reply, AllocError>
    requires { 12 ≤ length (fcb_of request.now) }
    ensures answer { IfOk result (λ y. y ≡ read_sequential disk.now request.now) }
    ensures disk { IsDisk disk.now }
{
    let position = usize::from(position_in(block_at(request, 0)));
    read_at(alloc, disk, request, position, position + 1)
}

/// Function 33, read random.
pub fn read_random(alloc: Global, disk: &Disk, request: &Request) -> Result<Reply, AllocError>
    requires { 12 ≤ length (fcb_of request.now) }
    ensures answer { IfOk result (λ y. y ≡ read_random disk.now request.now) }
    ensures disk { slice_index (block_read 1 request.now) 2 ≡ 0 → IsDisk disk.now }
{
    let random = block_at(request, 1);
    if byte_at(random, 2) != 0 {
        return Ok(telling(alloc, PAST_THE_DISK));
    }
    let position = usize::from(random_position(random));
    read_at(alloc, disk, request, position, position)
}

// Reads the record at a position; the FCB then tells the position `after`.
fn read_at(
    alloc: Global,
    disk: &Disk,
    request: &Request,
    position: usize,
    after: usize,
) -> Result<Reply, AllocError>
    requires fcb { 12 ≤ length (fcb_of request.now) }
    requires near { after < 0x100000 }
    ensures answer { IfOk result (λ y. y ≡ read_at disk.now request.now position after) }
    ensures disk { IsDisk disk.now }
{
    let name = Name::in_block(block_at(request, 0));
    let Some(file) = disk.file_named(&name) else {
        return Ok(telling(alloc, NO_RECORD));
    };
    let records = file.records();
    let Some(record) = records.get(position) else {
        return Ok(telling(alloc, NO_RECORD));
    };
    let fields = fields_at(after, records.len());
    writing_both(alloc, request, &fields, record.bytes())
}

/// Function 21, write sequential. After want of memory the disk is as before.
pub fn write_sequential(
    alloc: Global,
    disk: &mut Disk,
    request: &Request,
) -> Result<Reply, AllocError>
    requires fcb { 12 ≤ length (fcb_of request.now) }
    requires whole { length (block_read 1 request.now) ≡ 128 }
    ensures answer { IfOk result (λ y. ◌≡◌ {A = Changed} (record { reply = y; disk = disk.new }) (write_sequential disk.old request.now)) }
    ensures memory { OnErr result (disk.new ≡ disk.old) }
{
    let position = usize::from(position_in(block_at(request, 0)));
    write_at(
        alloc,
        disk,
        request,
        position,
        position + 1,
        block_at(request, 1),
    )
}

/// Function 34, write random. After want of memory the disk is as before.
pub fn write_random(alloc: Global, disk: &mut Disk, request: &Request) -> Result<Reply, AllocError>
    requires fcb { 12 ≤ length (fcb_of request.now) }
    requires whole { length (block_read 2 request.now) ≡ 128 }
    ensures answer { IfOk result (λ y. ◌≡◌ {A = Changed} (record { reply = y; disk = disk.new }) (write_random disk.old request.now)) }
    ensures memory { OnErr result (disk.new ≡ disk.old) }
{
    let random = block_at(request, 1);
    if byte_at(random, 2) != 0 {
        return Ok(telling(alloc, PAST_THE_DISK));
    }
    let position = usize::from(random_position(random));
    write_at(
        alloc,
        disk,
        request,
        position,
        position,
        block_at(request, 2),
    )
}

// Writes the record of these bytes at a position; the FCB then tells the position `after`.
fn write_at(
    alloc: Global,
    disk: &mut Disk,
    request: &Request,
    position: usize,
    after: usize,
    bytes: &[u8],
) -> Result<Reply, AllocError>
    requires whole { length bytes.now ≡ 128 }
    requires fcb { 12 ≤ length (fcb_of request.now) }
    requires next { after ≤ position + 1 }
    requires near { position < 0x10000 }
    ensures answer { IfOk result (λ y. ◌≡◌ {A = Changed} (record { reply = y; disk = disk.new }) (write_at disk.old request.now position after bytes.now)) }
    ensures memory { OnErr result (disk.new ≡ disk.old) }
{
    let name = Name::in_block(block_at(request, 0));
    let Some(file) = disk.file_named(&name) else {
        return Ok(telling(alloc, NO_ROOM));
    };
    let count = file.records().len();
    if disk.record_count() + (position + 1).saturating_sub(count) > MOST_RECORDS {
        return Ok(telling(alloc, NO_ROOM));
    }
    let fields = fields_at(after, count.max(position + 1));
    let reply = writing(alloc, request, &fields)?;
    disk.write_record(&name, position, bytes)?;
    Ok(reply)
}

/// Function 35, compute file size.
pub fn file_size(alloc: Global, disk: &Disk, request: &Request) -> Result<Reply, AllocError>
    requires { 12 ≤ length (fcb_of request.now) }
    ensures { IfOk result (λ y. y ≡ file_size disk.now request.now) }
{
    let count = match disk.file_named(&Name::in_block(block_at(request, 0))) {
        None => 0,
        Some(file) => file.records().len(),
    };
    writing(alloc, request, &random_bytes(count))
}

/// Function 36, set random record.
pub fn set_random_record(alloc: Global, request: &Request) -> Result<Reply, AllocError>
    ensures { IfOk result (λ y. y ≡ set_random_record request.now) }
{
    let ex = byte_at(block_at(request, 0), 0);
    let s2 = byte_at(block_at(request, 1), 0);
    let cr = byte_at(block_at(request, 2), 0);
    writing(
        alloc,
        request,
        &random_bytes(usize::from(position_of(ex, s2, cr))),
    )
}
