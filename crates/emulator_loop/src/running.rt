// The loop that runs a machine over a small BDOS and ports.
ghost use Rattle.std.specs.Prelude.{◌≡◌, ◌<◌, ◌≤◌, ◌+◌, None, IfOk, IfErr, OnOk};
ghost use Rattle.dialogue.specs.Lawful.{IsLawfulEvent};
ghost use Rattle.host.specs.Host.{SameFaults, OnlySays};
ghost use Rattle.emulator_loop.specs.Talk.{SaysRun, IsCutOff};
ghost use Rattle.emulator_loop.specs.Turns.{no_past};
ghost use Rattle.emulator_loop.specs.Advance.{IsTurnDone, IsTurnCutOff, IsAnswered, steps_after_turn};

use crate::emulator::{Emulator, Turn, Why};
use crate::fault::TalkFault;
use crate::lines::say_event;
use crate::replies::reply_is_in_range;
use bdos_small::{Devices, EventAnswer};
use dialogue::Event;
use host::Host;
use std::alloc::Global;

/// What a run over devices comes to.
#[derive(Clone, Copy)]
pub enum RunEnd {
    /// The program ended.
    Ended,
    /// The machine stopped.
    Stopped(Why),
    /// As many instructions ran as may.
    StepLimit,
    /// A call wants input, or an IN a port byte, and none is left.
    InputEnded,
    /// A call of this function needs a drive that is not there.
    NoDrive(u8),
}

/// What a run over devices comes to, and how many instructions ran: those that asked and the one that ended the program are counted,
/// and the step in which the machine stopped is not.
#[derive(Clone, Copy)]
pub struct Conversation {
    pub end: RunEnd,
    pub steps: u64,
}

/// Runs a machine over devices for up to `limit` turns, and says each event of its dialogue as it comes, in a line that begins with
/// the prefix.
pub fn converse<E: Emulator, H: Host>(
    alloc: Global,
    machine: &mut E,
    devices: &mut Devices,
    host: &mut H,
    prefix: &[u8],
    limit: u64,
) -> Result<Conversation, TalkFault>
    requires { E.runs machine.old }
    ensures run { IfOk result (λ c. SaysRun (E.course machine.old no_past) devices.old limit prefix.now c devices.new (H.state host.old) (H.state host.new)) }
    ensures cut { IfErr result (IsCutOff (E.course machine.old no_past) devices.old limit prefix.now (H.state host.old) (H.state host.new)) }
    ensures only { OnlySays (H.state host.old) (H.state host.new) }
    ensures within { IfOk result (λ c. c.steps ≤ limit) }
    ensures counted { OnOk result (SameFaults (H.state host.old) (H.state host.new)) }
{
    for count in 0..limit {
        if let Some(end) = turn(alloc, machine, devices, host, prefix)? {
            let steps = steps_by(end, count);
            return Ok(Conversation { end, steps });
        }
    }
    Ok(Conversation {
        end: RunEnd::StepLimit,
        steps: limit,
    })
}

// How many instructions ran, by how many ran before the last turn.
fn steps_by(end: RunEnd, before: u64) -> u64
    requires { before < 0xFFFF_FFFF_FFFF_FFFF }
    ensures steps { result ≡ steps_after_turn end before }
    ensures one_more { result ≤ before + 1 }
{
    match end {
        RunEnd::Stopped(_) => before,
        RunEnd::Ended | RunEnd::StepLimit | RunEnd::InputEnded | RunEnd::NoDrive(_) => before + 1,
    }
}

// One turn: the end of the run, if this is its last turn.
fn turn<E: Emulator, H: Host>(
    alloc: Global,
    machine: &mut E,
    devices: &mut Devices,
    host: &mut H,
    prefix: &[u8],
) -> Result<Option<RunEnd>, TalkFault>
    requires { E.runs machine.old }
    ensures done { IfOk result (λ o. IsTurnDone prefix.now (E.course machine.old) (E.course machine.new) devices.old devices.new (H.state host.old) (H.state host.new) o) }
    ensures ready { result ≡ Ok None → E.runs machine.new }
    ensures cut { IfErr result (IsTurnCutOff prefix.now (E.course machine.old) (H.state host.old) (H.state host.new)) }
    ensures only { OnlySays (H.state host.old) (H.state host.new) }
    ensures counted { OnOk result (SameFaults (H.state host.old) (H.state host.new)) }
{
    match machine.turn(alloc)? {
        Turn::Ran => Ok(None),
        Turn::Ended => {
            say_event(alloc, host, prefix, &Event::End)?;
            Ok(Some(RunEnd::Ended))
        }
        Turn::Stopped(why) => Ok(Some(RunEnd::Stopped(why))),
        Turn::Asks(event) => {
            say_event(alloc, host, prefix, &event)?;
            answer(alloc, machine, devices, &event)
        }
    }
}

// The answer to what the machine asked: the end of the run, if it is no reply.
fn answer<E: Emulator>(
    alloc: Global,
    machine: &mut E,
    devices: &mut Devices,
    event: &Event,
) -> Result<Option<RunEnd>, TalkFault>
    requires waits { E.waits machine.old event.now }
    requires lawful { IsLawfulEvent event.now }
    ensures answered { IfOk result (λ o. IsAnswered event.now (E.answered machine.old event.now) (E.course machine.new) devices.old devices.new o) }
    ensures ready { result ≡ Ok None → E.runs machine.new }
    ensures memory { IfErr result (λ fault. fault ≡ TalkFault.Memory) }
{
    match devices.answer(alloc, event)? {
        EventAnswer::Reply(reply) => {
            // that its numbers are words and bytes
            reply_is_in_range(&reply);
            machine.reply(event, &reply);
            Ok(None)
        }
        EventAnswer::InputEnded => Ok(Some(RunEnd::InputEnded)),
        EventAnswer::NoDrive(function) => Ok(Some(RunEnd::NoDrive(function))),
    }
}
