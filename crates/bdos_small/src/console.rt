// The console and its answers (CP/M 2.2 Operating System Manual, section 5.3, "BDOS functions").
ghost use Rattle.std.specs.Prelude.{◌≡◌, ◌≢◌, ◌+◌, ◌<◌, [], ◌∷◌, length, IfOk, OnErr};
ghost use Rattle.dialogue.specs.Shape.{argument_address};
ghost use Rattle.dialogue.specs.Lawful.{first_byte, IsLawfulRequest};
ghost use Rattle.bdos_small.specs.Calls.{reply_writing};
ghost use Rattle.bdos_small.specs.Console.{disk_selected};

use crate::input::Input;
use crate::line::{Line, read_line};
use crate::replies::{telling, writing};
use dialogue::{ArgWord, Reply, Request};
use std::alloc::{AllocError, Global};
use std::marker::Model;

/// The version that function 12 tells: CP/M 2.2.
const VERSION: u16 = 0x22;

/// The argument of function 6 that asks for a byte.
const DIRECT_INPUT: u8 = 0xFF;

/// What a call is answered: a reply; that no input is left for it; or that it needs a drive that is not there.
#[derive(Drop)]
pub enum Answer {
    Reply(Reply),
    InputEnded,
    NoDrive,
}

/// The console, seen as the input that is left.
#[derive(Drop)]
pub struct Console {
    input: Input,
}

impl Model for Console {
    ghost use Rattle.std.specs.Prelude.{ℕ, List};

    ghost Value = { List ℕ };

    ghost view = { λ c. c.input };
}

impl Console {
    ghost use Rattle.bdos_small.specs.Console.{ConsoleAnswered, console_answer, read_byte, direct_console, read_console_line, console_status, FitsRequest, IsByte, IsDirect, TakesInputByReply};

    /// The console with this input.
    pub fn new(input: Vec<u8>) -> Console
        ensures { result ≡ input.items }
    {
        Console {
            input: Input::new(input),
        }
    }

    /// The answer to a call. Only a reply takes input, so that after another answer or want of memory the call can be answered
    /// anew; only a line wants memory. Function 0 ends a program and is not asked; it is answered `NoDrive`, as the functions of a
    /// disk are.
    pub fn answer(&mut self, alloc: Global, request: &Request) -> Result<Answer, AllocError>
        requires { IsLawfulRequest request.now }
        ensures answer { IfOk result (λ a. ◌≡◌ {A = ConsoleAnswered} (record { answer = a; left = self.new }) (console_answer self.old request.now)) }
        ensures fits { IfOk result (λ a. FitsRequest request.now a) }
        ensures takes { IfOk result (λ a. TakesInputByReply a self.old self.new) }
        ensures memory { OnErr result (self.new ≡ self.old) }
        ensures wanted { OnErr result ((request.now.shape.function ≡ 10) × (self.old ≢ [])) }
    {
        match request.shape.function {
            1 => Ok(self.read_byte(alloc)),
            6 => Ok(self.direct_console(alloc, request.shape.arg)),
            10 => self.read_line(alloc, request),
            11 => Ok(told(alloc, self.status())),
            12 => Ok(told(alloc, VERSION)),
            14 => Ok(select_disk(alloc, request.shape.arg)),
            2 | 9 | 13 | 25 | 26 => Ok(told(alloc, 0)),
            _ => Ok(Answer::NoDrive),
        }
    }

    // Function 1: the next byte.
    fn read_byte(&mut self, alloc: Global) -> Answer
        ensures byte { IsByte result }
        ensures answer { ◌≡◌ {A = ConsoleAnswered} (record { answer = result; left = self.new }) (read_byte self.old) }
    {
        match self.input.take() {
            None => Answer::InputEnded,
            Some(byte) => told(alloc, u16::from(byte)),
        }
    }

    // Function 6: the next byte, or 0 where none is left, where the argument asks for it; else output.
    fn direct_console(&mut self, alloc: Global, arg: ArgWord) -> Answer
        ensures direct { IsDirect arg result }
        ensures answer { ◌≡◌ {A = ConsoleAnswered} (record { answer = result; left = self.new }) (direct_console arg self.old) }
    {
        match arg {
            ArgWord::Byte(DIRECT_INPUT) => told(alloc, u16::from(self.input.take().unwrap_or(0))),
            _ => told(alloc, 0),
        }
    }

    // Function 11: whether a byte waits.
    fn status(&self) -> u16
        ensures { result ≡ console_status self.now }
    {
        if self.input.left().is_empty() {
            0
        } else {
            0xFF
        }
    }

    // Function 10: a line, written where the range begins that the call may write.
    fn read_line(&mut self, alloc: Global, request: &Request) -> Result<Answer, AllocError>
        requires lawful { IsLawfulRequest request.now }
        requires line { request.now.shape.function ≡ 10 }
        ensures answer { IfOk result (λ a. ◌≡◌ {A = ConsoleAnswered} (record { answer = a; left = self.new }) (read_console_line (argument_address request.now.shape.arg + 1) (first_byte request.now.blocks) self.old)) }
        ensures fits { IfOk result (λ a. FitsRequest request.now a) }
        ensures memory { OnErr result (self.new ≡ self.old) }
        ensures wanted { OnErr result (self.old ≢ []) }
    {
        if self.input.left().is_empty() {
            return Ok(Answer::InputEnded);
        }
        let Line { bytes, used } = read_line(alloc, self.input.left(), room_of(request))?;
        let reply = written(alloc, request, bytes)?;
        self.input.skip(used);
        Ok(Answer::Reply(reply))
    }
}

// A reply that writes nothing.
fn told(alloc: Global, answer: u16) -> Answer
    ensures { result ≡ Answer.Reply (record { answer = answer; writes = [] }) }
{
    Answer::Reply(telling(alloc, answer))
}

// Function 14: drive A is 0, and there is no other.
fn select_disk(alloc: Global, arg: ArgWord) -> Answer
    ensures { result ≡ disk_selected arg }
{
    match arg {
        ArgWord::Byte(0) => told(alloc, 0),
        _ => Answer::NoDrive,
    }
}

// How many bytes a line may have that a call reads: the first of its buffer.
fn room_of(request: &Request) -> u8
    ensures { result ≡ first_byte request.now.blocks }
{
    match request.blocks.as_slice().first() {
        None => 0,
        Some(block) => block.bytes.as_slice().first().copied().unwrap_or(0),
    }
}

// The reply that writes a line where the range begins that the call may write, its length first.
fn written(alloc: Global, request: &Request, mut line: Vec<u8>) -> Result<Reply, AllocError>
    requires { length line.items < 256 }
    ensures { IfOk result (λ y. y ≡ reply_writing request.now 0 (length line.items ∷ line.items)) }
{
    let length = line.len() as u8;
    line.insert(0, length)?;
    writing(alloc, request, &line)
}
