// The small BDOS and its answers.
ghost use Rattle.std.specs.Prelude.{◌≡◌, true, IfOk, OnErr, None};
ghost use Rattle.dialogue.specs.Fits.{fits};
ghost use Rattle.dialogue.specs.Lawful.{IsLawfulRequest};
ghost use Rattle.bdos_small.specs.Console.{FitsRequest};
ghost use Rattle.bdos_small.specs.Calls.{takes_fcb};

use crate::console::{Answer, Console};
use crate::directory::{
    Search, close_file, delete_file, make_file, open_file, rename_file, search_first, search_next,
};
use crate::disk::Disk;
use crate::fcb::byte_at;
use crate::records::{
    file_size, read_random, read_sequential, set_random_record, write_random, write_sequential,
};
use crate::replies::block_at;
use dialogue::{Reply, Request};
use std::alloc::{AllocError, Global};
use std::marker::Model;

/// A small BDOS, seen as the files of its disk, the input that is left, and the search that goes on.
#[derive(Drop)]
pub struct Bdos {
    disk: Disk,
    console: Console,
    search: Option<Search>,
}

impl Model for Bdos {
    ghost use Rattle.bdos_small.specs.Small.{Small, small_of};

    ghost Value = { Small };

    ghost view = { λ b. small_of b.disk b.console b.search };
}

impl Bdos {
    ghost use Rattle.bdos_small.specs.Small.{small_of, Answered, replying, file_answer, fcb_answer, with_search, small_answer, ChangesByReply};
    ghost use Rattle.bdos_small.specs.Files.{search_next};

    /// A BDOS with this disk and this input of the console; no search goes on.
    pub fn new(disk: Disk, input: Vec<u8>) -> Bdos
        ensures { result ≡ small_of disk input.items None }
    {
        Bdos {
            disk,
            console: Console::new(input),
            search: None,
        }
    }

    /// Its disk.
    pub fn disk(&self) -> &Disk
        ensures { result.now ≡ self.now.disk }
    {
        &self.disk
    }

    /// The answer to a call. Any answer but a reply leaves everything as before, and so does want of memory, so that the call can be
    /// answered anew. Function 0 ends a program and is not asked; it is answered `NoDrive`.
    pub fn answer(&mut self, alloc: Global, request: &Request) -> Result<Answer, AllocError>
        requires { IsLawfulRequest request.now }
        ensures answer { IfOk result (λ a. ◌≡◌ {A = Answered} (record { answer = a; left = self.new }) (small_answer self.old request.now)) }
        ensures fits { IfOk result (λ a. FitsRequest request.now a) }
        ensures changes { IfOk result (λ a. ChangesByReply a self.old self.new) }
        ensures memory { OnErr result (self.new ≡ self.old) }
    {
        match request.shape.function {
            15..=17 | 19..=23 | 33..=35 => self.of_file(alloc, request),
            18 => self.search_on(alloc, request),
            36 => Ok(Answer::Reply(set_random_record(alloc, request)?)),
            _ => self.console.answer(alloc, request),
        }
    }

    // A call that names a file by an FCB: drives 0 and 1 are the disk's, and there is no other.
    fn of_file(&mut self, alloc: Global, request: &Request) -> Result<Answer, AllocError>
        requires lawful { IsLawfulRequest request.now }
        requires takes { takes_fcb request.now.shape.function ≡ true }
        ensures answer { IfOk result (λ a. ◌≡◌ {A = Answered} (record { answer = a; left = self.new }) (fcb_answer self.old request.now)) }
        ensures fits { IfOk result (λ a. FitsRequest request.now a) }
        ensures changes { IfOk result (λ a. ChangesByReply a self.old self.new) }
        ensures memory { OnErr result (self.new ≡ self.old) }
    {
        if byte_at(block_at(request, 0), 0) > 1 {
            return Ok(Answer::NoDrive);
        }
        Ok(Answer::Reply(self.file_reply(alloc, request)?))
    }

    // The reply to a call that names a file on the disk.
    fn file_reply(&mut self, alloc: Global, request: &Request) -> Result<Reply, AllocError>
        requires lawful { IsLawfulRequest request.now }
        requires takes { takes_fcb request.now.shape.function ≡ true }
        ensures answer { IfOk result (λ y. replying self.new y ≡ file_answer self.old request.now) }
        ensures fits { IfOk result (λ y. fits request.now y ≡ true) }
        ensures memory { OnErr result (self.new ≡ self.old) }
    {
        match request.shape.function {
            15 => open_file(alloc, &self.disk, request),
            16 => Ok(close_file(alloc, &self.disk, request)),
            17 => {
                let (reply, search) = search_first(alloc, &self.disk, request)?;
                self.search = search;
                Ok(reply)
            }
            19 => Ok(delete_file(alloc, &mut self.disk, request)),
            20 => read_sequential(alloc, &self.disk, request),
            21 => write_sequential(alloc, &mut self.disk, request),
            22 => make_file(alloc, &mut self.disk, request),
            23 => rename_file(alloc, &mut self.disk, request),
            33 => read_random(alloc, &self.disk, request),
            34 => write_random(alloc, &mut self.disk, request),
            _ => file_size(alloc, &self.disk, request),
        }
    }

    // Function 18, search for next.
    fn search_on(&mut self, alloc: Global, request: &Request) -> Result<Answer, AllocError>
        requires lawful { IsLawfulRequest request.now }
        requires search { request.now.shape.function ≡ 18 }
        ensures answer { IfOk result (λ a. ◌≡◌ {A = Answered} (record { answer = a; left = self.new }) (with_search self.old (search_next self.old.disk self.old.search request.now))) }
        ensures fits { IfOk result (λ a. FitsRequest request.now a) }
        ensures changes { IfOk result (λ a. ChangesByReply a self.old self.new) }
        ensures memory { OnErr result (self.new ≡ self.old) }
    {
        let (reply, search) = search_next(alloc, &self.disk, &self.search, request)?;
        self.search = search;
        Ok(Answer::Reply(reply))
    }
}
