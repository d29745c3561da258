// Disks, and what can be done with their files.
ghost use Rattle.std.specs.Prelude.{◌≡◌, ◌<◌, ◌≤◌, ◌+◌, true, [], None, length, insert, slice_get, slice_set, IsSome, IfSome, OnOk, OnErr, vec_len, vec_capacity};
ghost use Rattle.std.specs.List.{filter, position};
ghost use Rattle.std.specs.Option.{option_copied};
ghost use Rattle.bdos_small.specs.Names.{is_file_name, is_before};
ghost use Rattle.bdos_small.specs.Disks.{IsDisk, records_in, file_named, next_matching, any_matching, without_matching, with_file, without_file, with_records, growth, written_at, has_name};

use crate::file::File;
use crate::name::Name;
use crate::record::Record;
use std::alloc::{AllocError, Global};
use std::marker::Model;

/// The most files that a disk has.
pub const MOST_FILES: usize = 64;

/// The most records that all files of a disk have together.
pub const MOST_RECORDS: usize = 8000;

/// A disk, seen as the list of its files in ascending order of their names: at most 64 files, with at most 8,000 records in all.
#[derive(Drop)]
pub struct Disk {
    pub(crate) files: Vec<File>,
}

impl Model for Disk {
    ghost use Rattle.std.specs.Prelude.{List};
    ghost use Rattle.bdos_small.specs.Stored.{Stored};

    ghost Value = { List Stored };

    ghost use Rattle.bdos_small.specs.Disks.{IsDisk};

    ghost view = { λ d. d.files.items };

    ghost invariant = { λ d. IsDisk d.files.items };
}

impl Disk {
    /// A disk without files.
    pub fn empty(alloc: Global) -> Disk
        ensures { result ≡ [] }
    {
        Disk {
            files: Vec::new(alloc),
        }
    }

    /// Its files, in ascending order of their names.
    pub fn files(&self) -> &[File]
        ensures value { result.now ≡ self.now }
        ensures disk { IsDisk self.now }
    {
        self.files.as_slice()
    }

    /// The file of a name.
    pub fn file_named(&self, name: &Name) -> Option<&File>
        ensures value { option_copied result ≡ file_named name.now self.now }
        ensures few { IfSome result (λ f. length f.now.records ≤ 8000) }
        ensures disk { IsDisk self.now }
    {
        for file in &self.files {
            if file.name.is(name) {
                return Some(file);
            }
        }
        None
    }

    /// The first file whose name matches a pattern and comes after a name, if there is one.
    pub fn next_matching(&self, pattern: &Name, last: &Option<Name>) -> Option<&File>
        ensures value { option_copied result ≡ next_matching pattern.now last.now self.now }
        ensures disk { IsDisk self.now }
    {
        for file in &self.files {
            if pattern.matches(&file.name) && file.name.is_after(last) {
                return Some(file);
            }
        }
        None
    }

    /// Whether the name of a file matches a pattern.
    pub fn any_matching(&self, pattern: &Name) -> bool
        ensures { result ≡ any_matching pattern.now self.now }
    {
        for file in &self.files {
            if pattern.matches(&file.name) {
                return true;
            }
        }
        false
    }

    /// The number of records of all files.
    pub fn record_count(&self) -> usize
        ensures count { result ≡ records_in self.now }
        ensures small { result ≤ 8000 }
    {
        self.files.iter().map(|file| file.records.len()).sum()
    }

    /// Removes all files whose names match a pattern.
    pub fn remove_matching(&mut self, pattern: &Name)
        ensures { self.new ≡ without_matching pattern.now self.old }
    {
        self.files.retain(|file| !pattern.matches(&file.name));
    }

    /// Adds a file without records. After want of memory the disk is as before.
    pub fn add(&mut self, alloc: Global, name: Name) -> Result<(), AllocError>
        requires lawful { is_file_name name ≡ true }
        requires free { file_named name self.old ≡ None }
        requires room { length self.old < 64 }
        ensures ok { OnOk result (self.new ≡ with_file (record { name = name; records = [] }) self.old) }
        ensures err { OnErr result (self.new ≡ self.old) }
    {
        self.files.reserve(1)?;
        let file = File {
            name,
            records: Vec::new(alloc),
        };
        put_file(&mut self.files, file);
        Ok(())
    }

    /// Gives the file of a name another one. After want of memory the disk is as before.
    pub fn rename(&mut self, from: &Name, to: Name) -> Result<(), AllocError>
        requires lawful { is_file_name to ≡ true }
        requires free { file_named to self.old ≡ None }
        requires found { IsSome (file_named from.now self.old) }
        ensures ok { OnOk result (IfSome (file_named from.now self.old) (λ f. self.new ≡ with_file (record { name = to; records = f.records }) (without_file from.now self.old))) }
        ensures err { OnErr result (self.new ≡ self.old) }
    {
        self.files.reserve(1)?;
        if let Some(place) = place_of(&self.files, from) {
            let mut file = self.files.remove(place);
            file.name = to;
            put_file(&mut self.files, file);
        }
        Ok(())
    }

    /// Writes the record of these 128 bytes into the file of a name at a position; where the file is shorter, records of zeros stand
    /// before it. After want of memory the disk is as before.
    pub fn write_record(
        &mut self,
        name: &Name,
        position: usize,
        bytes: &[u8],
    ) -> Result<(), AllocError>
        requires whole { length bytes.now ≡ 128 }
        requires near { position < 0x10000 }
        requires room { IfSome (file_named name.now self.old) (λ f. records_in self.old + growth position f.records ≤ 8000) }
        requires found { IsSome (file_named name.now self.old) }
        ensures ok { OnOk result (IfSome (file_named name.now self.old) (λ f. self.new ≡ with_records name.now (written_at position bytes.now f.records) self.old)) }
        ensures err { OnErr result (self.new ≡ self.old) }
    {
        if let Some(place) = place_of(&self.files, name) {
            put_record(&mut self.files, place, position, Record::of(bytes))?;
        }
        Ok(())
    }
}

// The place of the file of a name.
fn place_of(files: &[File], name: &Name) -> Option<usize>
    ensures { result ≡ position (has_name name.now) files.now }
{
    for k in 0..files.len() {
        let file = &files[k];
        if file.name.is(name) {
            return Some(k);
        }
    }
    None
}

// The number of files that come before a name.
fn count_before(files: &[File], name: &Name) -> usize
    ensures { result ≡ length (filter (λ f. is_before f.name name.now) files.now) }
{
    let mut count = 0;
    for file in files {
        if file.name.is_before(name) {
            count += 1;
        }
    }
    count
}

// Puts a file into its place among others, which have room for it.
fn put_file(files: &mut Vec<File>, file: File)
    requires { vec_len files.old < vec_capacity files.old }
    ensures { files.new.items ≡ insert files.old.items (length (filter (λ f. is_before f.name file.name) files.old.items)) file }
{
    let place = count_before(files, &file.name);
    match files.insert(place, file) {
        Ok(()) => (),
        Err(_) => unreachable!(),
    }
}

// Writes a record into a file at a place.
fn put_record(
    files: &mut Vec<File>,
    place: usize,
    position: usize,
    written: Record,
) -> Result<(), AllocError>
    requires within { place < vec_len files.old }
    requires near { position < 0x10000 }
    ensures ok { OnOk result (IfSome (slice_get files.old.items place) (λ f. files.new.items ≡ slice_set files.old.items place (record { name = f.name; records = written_at position written f.records }))) }
    ensures err { OnErr result (files.new.items ≡ files.old.items) }
{
    let file = &mut files[place];
    file.write(position, written)
}
