// A host in memory, for tests: it tells everything, and fails where it is told to.
ghost use Rattle.std.specs.Prelude.{◌≡◌, ◌≢◌, ◌+◌, ◌-◌, ◌<◌, ◌↔◌, ◌⊎◌, [], ◌∷◌, ◌++◌, min, take, drop, length, IsTrue, IsOk, IfOk, IfErr, IfSome, OnOk, OnErr, option_copied, unwrap_or};
ghost use Rattle.host.specs.Host.{one_more, failures_after, wants_after};
ghost use Rattle.host.specs.MemHost.{file_in_mem_host, said_of, fails_of, calls_of, read_faults_of, write_faults_of, memory_faults_of, state_of_mem_host, NextFails, read_count_after, piece_of, CountsCall, CountsNothing, KeepsFiles, PutsFile};

use crate::{Host, HostFault};
use std::alloc::{AllocError, Global};
use std::collections::BTreeMap;

/// How many bytes one `read`, `append` or `say` takes at most.
const PIECE: usize = 4096;

/// Files in memory, and what was said.
#[derive(Drop)]
pub struct MemHost {
    alloc: Global,
    files: BTreeMap<String, Vec<u8>>,
    said: Vec<u8>,
    fails: Vec<u64>,
    calls: u64,
    read_faults: u64,
    write_faults: u64,
    memory_faults: u64,
}

/// Copies a piece of what is held from `at` on, and answers how many bytes.
fn copy_piece(held: &[u8], at: u64, into: &mut [u8]) -> usize
    ensures count { result ≡ piece_of (min (length into.old) (length held.now - at)) }
    ensures bytes { into.new ≡ take result (drop at held.now) ++ drop result into.old }
{
    let rest = held.get(at as usize..).unwrap_or(&[]);
    let count = rest.len().min(into.len()).min(PIECE);
    into[..count].copy_from_slice(&rest[..count]);
    count
}

impl MemHost {
    /// A host with no files, of which no call fails.
    pub fn new(alloc: Global) -> MemHost
        ensures files { (name : _) → file_in_mem_host result name ≡ None }
        ensures said { said_of result ≡ [] }
        ensures fails { fails_of result ≡ [] }
        ensures calls { calls_of result ≡ 0 }
        ensures faults { (read_faults_of result ≡ 0) × (write_faults_of result ≡ 0) × (memory_faults_of result ≡ 0) }
    {
        MemHost {
            alloc,
            files: BTreeMap::new(alloc),
            said: Vec::new(alloc),
            fails: Vec::new(alloc),
            calls: 0,
            read_faults: 0,
            write_faults: 0,
            memory_faults: 0,
        }
    }

    /// Makes a file of these bytes, in place of the one of that name. This is no call that is counted.
    pub fn put(&mut self, name: &str, bytes: &[u8]) -> Result<(), AllocError>
        ensures ok { OnOk result (PutsFile self.old self.new name.now bytes.now) }
        ensures err { OnErr result (KeepsFiles self.old self.new) }
        ensures said { said_of self.new ≡ said_of self.old }
        ensures counts { CountsNothing self.old self.new }
    {
        let key = String::from_str(self.alloc, name)?;
        let held = Vec::from_slice(self.alloc, bytes)?;
        self.files.insert(key, held)?;
        Ok(())
    }

    /// Lists one more call that fails, counted from 1 over all calls of `read`, `begin`, `append` and `say`.
    pub fn fail_at(&mut self, call: u64) -> Result<(), AllocError>
        ensures ok { OnOk result (fails_of self.new ≡ fails_of self.old ++ call ∷ []) }
        ensures err { OnErr result (fails_of self.new ≡ fails_of self.old) }
        ensures files { KeepsFiles self.old self.new }
        ensures said { said_of self.new ≡ said_of self.old }
        ensures calls { calls_of self.new ≡ calls_of self.old }
        ensures read_faults { read_faults_of self.new ≡ read_faults_of self.old }
        ensures write_faults { write_faults_of self.new ≡ write_faults_of self.old }
        ensures memory_faults { memory_faults_of self.new ≡ memory_faults_of self.old }
    {
        self.fails.push(call)?;
        Ok(())
    }

    /// The bytes of a file; None exactly where there is no file of that name.
    pub fn file(&self, name: &str) -> Option<&[u8]>
        ensures { option_copied result ≡ file_in_mem_host self.now name.now }
    {
        Some(self.files.get(name)?.as_slice())
    }

    /// What was said so far.
    pub fn said(&self) -> &[u8]
        ensures { result.now ≡ said_of self.now }
    {
        self.said.as_slice()
    }

    /// Counts one more call, and tells whether it is one that fails.
    fn next_fails(&mut self) -> bool
        ensures fails { IsTrue result ↔ NextFails self.old }
        ensures calls { self.new ≡ record self.old { calls = one_more self.old.calls } }
    {
        self.calls = self.calls.saturating_add(1);
        self.fails.contains(&self.calls)
    }

    /// Counts one more call of a write, and fails where it is one that fails.
    fn start_write(&mut self) -> Result<(), HostFault>
        ensures failed { (result ≡ Err HostFault.Failed) ↔ NextFails self.old }
        ensures memory { result ≢ Err HostFault.Memory }
        ensures change { self.new ≡ record self.old {
          calls = one_more self.old.calls;
          write_faults = failures_after result self.old.write_faults;
        } }
    {
        if self.next_fails() {
            self.write_faults = self.write_faults.saturating_add(1);
            return Err(HostFault::Failed);
        }
        Ok(())
    }

    /// Counts a write that memory did not do for.
    fn counted(&mut self, done: Result<(), AllocError>) -> Result<(), HostFault>
        ensures answer { IsOk result ↔ IsOk done }
        ensures memory { IfErr result (λ fault. fault ≡ HostFault.Memory) }
        ensures change { self.new ≡ record self.old {
          memory_faults = wants_after result self.old.memory_faults;
        } }
    {
        if done.is_err() {
            self.memory_faults = self.memory_faults.saturating_add(1);
            return Err(HostFault::Memory);
        }
        Ok(())
    }

    /// Adds bytes at the end of a file, and makes it where there is none.
    fn add(&mut self, name: &str, bytes: &[u8]) -> Result<(), AllocError>
        ensures ok { OnOk result (PutsFile self.old self.new name.now
            (unwrap_or (file_in_mem_host self.old name.now) [] ++ bytes.now)) }
        ensures err { OnErr result (KeepsFiles self.old self.new) }
        ensures said { said_of self.new ≡ said_of self.old }
        ensures counts { CountsNothing self.old self.new }
    {
        match self.files.get_mut(name) {
            Some(held) => held.extend_from_slice(bytes),
            None => self.put(name, bytes),
        }
    }
}

impl Host for MemHost {
    ghost state = { state_of_mem_host };

    fn read(&mut self, name: &str, at: u64, into: &mut [u8]) -> Result<usize, HostFault>
        ensures failed { (result ≡ Err HostFault.Failed)
            ↔ (NextFails self.old ⊎ (file_in_mem_host self.old name.now ≡ None)) }
        ensures memory { result ≢ Err HostFault.Memory }
        ensures count { IfOk result (λ k. IfSome (file_in_mem_host self.old name.now)
            (λ held. k ≡ piece_of (min (length into.old) (length held - at)))) }
        ensures bytes { IfOk result (λ k. IfSome (file_in_mem_host self.old name.now)
            (λ held. into.new ≡ take k (drop at held) ++ drop k into.old)) }
        ensures unread { OnErr result (into.new ≡ into.old) }
        ensures files { KeepsFiles self.old self.new }
        ensures said { said_of self.new ≡ said_of self.old }
        ensures call { CountsCall self.old self.new }
        ensures read_faults { read_faults_of self.new
            ≡ read_count_after (file_in_mem_host self.old name.now) result (read_faults_of self.old) }
        ensures write_faults { write_faults_of self.new ≡ write_faults_of self.old }
        ensures memory_faults { memory_faults_of self.new ≡ memory_faults_of self.old }
    {
        let fails = self.next_fails();
        let Some(held) = self.files.get(name) else {
            return Err(HostFault::Failed);
        };
        if fails {
            self.read_faults = self.read_faults.saturating_add(1);
            return Err(HostFault::Failed);
        }
        Ok(copy_piece(held.as_slice(), at, into))
    }

    fn begin(&mut self, name: &str) -> Result<(), HostFault>
        ensures failed { (result ≡ Err HostFault.Failed) ↔ NextFails self.old }
        ensures ok { OnOk result (PutsFile self.old self.new name.now []) }
        ensures fault { OnErr result (KeepsFiles self.old self.new) }
        ensures said { said_of self.new ≡ said_of self.old }
        ensures call { CountsCall self.old self.new }
        ensures read_faults { read_faults_of self.new ≡ read_faults_of self.old }
        ensures write_faults { write_faults_of self.new ≡ failures_after result (write_faults_of self.old) }
        ensures memory_faults { memory_faults_of self.new ≡ wants_after result (memory_faults_of self.old) }
    {
        self.start_write()?;
        let made = self.put(name, &[]);
        self.counted(made)
    }

    fn append(&mut self, name: &str, bytes: &[u8]) -> Result<usize, HostFault>
        ensures failed { (result ≡ Err HostFault.Failed) ↔ NextFails self.old }
        ensures count { IfOk result (λ k. k ≡ piece_of (length bytes.now)) }
        ensures ok { IfOk result (λ k. PutsFile self.old self.new name.now
            (unwrap_or (file_in_mem_host self.old name.now) [] ++ take k bytes.now)) }
        ensures fault { OnErr result (KeepsFiles self.old self.new) }
        ensures said { said_of self.new ≡ said_of self.old }
        ensures call { CountsCall self.old self.new }
        ensures read_faults { read_faults_of self.new ≡ read_faults_of self.old }
        ensures write_faults { write_faults_of self.new ≡ failures_after result (write_faults_of self.old) }
        ensures memory_faults { memory_faults_of self.new ≡ wants_after result (memory_faults_of self.old) }
    {
        self.start_write()?;
        let piece = &bytes[..PIECE.min(bytes.len())];
        let added = self.add(name, piece);
        self.counted(added)?;
        Ok(piece.len())
    }

    fn say(&mut self, bytes: &[u8]) -> Result<usize, HostFault>
        ensures failed { (result ≡ Err HostFault.Failed) ↔ NextFails self.old }
        ensures count { IfOk result (λ k. k ≡ piece_of (length bytes.now)) }
        ensures ok { IfOk result (λ k. said_of self.new ≡ said_of self.old ++ take k bytes.now) }
        ensures fault { OnErr result (said_of self.new ≡ said_of self.old) }
        ensures files { KeepsFiles self.old self.new }
        ensures call { CountsCall self.old self.new }
        ensures read_faults { read_faults_of self.new ≡ read_faults_of self.old }
        ensures write_faults { write_faults_of self.new ≡ failures_after result (write_faults_of self.old) }
        ensures memory_faults { memory_faults_of self.new ≡ wants_after result (memory_faults_of self.old) }
    {
        self.start_write()?;
        let piece = &bytes[..PIECE.min(bytes.len())];
        let said = self.said.extend_from_slice(piece);
        self.counted(said)?;
        Ok(piece.len())
    }
}
