// The functions of the directory (CP/M 2.2 Operating System Manual, section 5.3, "BDOS Functions").
ghost use Rattle.std.specs.Prelude.{◌≡◌, ◌≤◌, length, IfOk, OnErr, OnSome};
ghost use Rattle.bdos_small.specs.Disks.{IsDisk};
ghost use Rattle.bdos_small.specs.Calls.{fcb_of, block_read};
ghost use Rattle.std.specs.Option.{option_copied};
ghost use Rattle.bdos_small.specs.Files.{Searched, Changed, opened, open_file, close_file, gives, search_first, search_next, delete_file, is_free, make_file, rename_file};

use crate::disk::{Disk, MOST_FILES};
use crate::fcb::{byte_at, directory_entry, opened_fcb};
use crate::file::File;
use crate::name::Name;
use crate::replies::{block_at, telling, writing};
use dialogue::{Reply, Request};
use std::alloc::{AllocError, Global};

/// The answers of the functions of files: done, or not.
const DONE: u16 = 0;

const NOT_FOUND: u16 = 0xFF;

/// A search that goes on: its pattern, and the last name that it gave.
#[derive(Drop)]
pub struct Search {
    pub pattern: Name,
    pub last: Option<Name>,
}

/// Function 15, open file.
pub fn open_file(alloc: Global, disk: &Disk, request: &Request) -> Result<Reply, AllocError>
    requires { 12 ≤ length (fcb_of request.now) }
    ensures answer { IfOk result (λ y. y ≡ open_file disk.now request.now) }
    ensures disk { IsDisk disk.now }
{
    let pattern = Name::in_block(block_at(request, 0));
    opened(alloc, request, disk.next_matching(&pattern, &None))
}

// What an open file's call is replied.
fn opened(alloc: Global, request: &Request, file: Option<&File>) -> Result<Reply, AllocError>
    ensures { IfOk result (λ y. y ≡ opened request.now (option_copied file.entry)) }
{
    let Some(file) = file else {
        return Ok(telling(alloc, NOT_FOUND));
    };
    let fcb = block_at(request, 0);
    let ex = byte_at(fcb, 12);
    if ex > 0 && file.records().len() <= 128 * usize::from(ex) {
        return Ok(telling(alloc, NOT_FOUND));
    }
    let opened = opened_fcb(byte_at(fcb, 0), file.name(), ex, file.records().len());
    writing(alloc, request, &opened)
}

/// Function 16, close file.
pub fn close_file(alloc: Global, disk: &Disk, request: &Request) -> Reply
    requires { 12 ≤ length (fcb_of request.now) }
    ensures { result ≡ close_file disk.now request.now }
{
    let pattern = Name::in_block(block_at(request, 0));
    if disk.any_matching(&pattern) {
        telling(alloc, DONE)
    } else {
        telling(alloc, NOT_FOUND)
    }
}

/// Function 17, search for first: the answer, and the search that goes on.
pub fn search_first(
    alloc: Global,
    disk: &Disk,
    request: &Request,
) -> Result<(Reply, Option<Search>), AllocError>
    requires { 12 ≤ length (fcb_of request.now) }
    ensures answer { IfOk result (λ p. ◌≡◌ {A = Searched} (record { reply = p.0; search = p.1 }) (search_first disk.now request.now)) }
    ensures disk { IsDisk disk.now }
{
    let pattern = Name::in_block(block_at(request, 0));
    found(alloc, request, pattern, disk.next_matching(&pattern, &None))
}

/// Function 18, search for next.
pub fn search_next(
    alloc: Global,
    disk: &Disk,
    search: &Option<Search>,
    request: &Request,
) -> Result<(Reply, Option<Search>), AllocError>
    ensures answer { IfOk result (λ p. ◌≡◌ {A = Searched} (record { reply = p.0; search = p.1 }) (search_next disk.now search.now request.now)) }
    ensures disk { OnSome search.now (IsDisk disk.now) }
{
    match search {
        None => Ok((telling(alloc, NOT_FOUND), None)),
        Some(Search { pattern, last }) => {
            found(alloc, request, *pattern, disk.next_matching(pattern, last))
        }
    }
}

// What a search answers that came to a file, or to the end.
fn found(
    alloc: Global,
    request: &Request,
    pattern: Name,
    file: Option<&File>,
) -> Result<(Reply, Option<Search>), AllocError>
    ensures { IfOk result (λ p. ◌≡◌ {A = Searched} (record { reply = p.0; search = p.1 }) (gives request.now pattern (option_copied file.entry))) }
{
    let Some(file) = file else {
        return Ok((telling(alloc, NOT_FOUND), None));
    };
    let entry = directory_entry(file.name(), file.records().len());
    let reply = writing(alloc, request, &entry)?;
    let last = Some(file.name());
    Ok((reply, Some(Search { pattern, last })))
}

/// Function 19, delete file.
pub fn delete_file(alloc: Global, disk: &mut Disk, request: &Request) -> Reply
    requires { 12 ≤ length (fcb_of request.now) }
    ensures { ◌≡◌ {A = Changed} (record { reply = result; disk = disk.new }) (delete_file disk.old request.now) }
{
    let pattern = Name::in_block(block_at(request, 0));
    if !disk.any_matching(&pattern) {
        return telling(alloc, NOT_FOUND);
    }
    disk.remove_matching(&pattern);
    telling(alloc, DONE)
}

/// Function 22, make file. After want of memory the disk is as before.
pub fn make_file(alloc: Global, disk: &mut Disk, request: &Request) -> Result<Reply, AllocError>
    requires { 12 ≤ length (fcb_of request.now) }
    ensures answer { IfOk result (λ y. ◌≡◌ {A = Changed} (record { reply = y; disk = disk.new }) (make_file disk.old request.now)) }
    ensures memory { OnErr result (disk.new ≡ disk.old) }
{
    let fcb = block_at(request, 0);
    let name = Name::in_block(fcb);
    if !is_free(disk, &name) || disk.files().len() >= MOST_FILES {
        return Ok(telling(alloc, NOT_FOUND));
    }
    let opened = opened_fcb(byte_at(fcb, 0), name, byte_at(fcb, 12), 0);
    let reply = writing(alloc, request, &opened)?;
    disk.add(alloc, name)?;
    Ok(reply)
}

// Whether a new file may have a name.
fn is_free(disk: &Disk, name: &Name) -> bool
    ensures { result ≡ is_free name.now disk.now }
{
    name.is_lawful() && disk.file_named(name).is_none()
}

/// Function 23, rename file. After want of memory the disk is as before.
pub fn rename_file(alloc: Global, disk: &mut Disk, request: &Request) -> Result<Reply, AllocError>
    requires fcb { 12 ≤ length (fcb_of request.now) }
    requires other { 12 ≤ length (block_read 1 request.now) }
    ensures answer { IfOk result (λ y. ◌≡◌ {A = Changed} (record { reply = y; disk = disk.new }) (rename_file disk.old request.now)) }
    ensures memory { OnErr result (disk.new ≡ disk.old) }
{
    let from = Name::in_block(block_at(request, 0));
    let to = Name::in_block(block_at(request, 1));
    if disk.file_named(&from).is_none() || !is_free(disk, &to) {
        return Ok(telling(alloc, NOT_FOUND));
    }
    disk.rename(&from, to)?;
    Ok(telling(alloc, DONE))
}
