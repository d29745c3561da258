// What an instruction comes to.
use cells::Place;

/// Where what asks goes on after its reply: the place and SP, and whether the two were popped, as a jump to 5 does.
#[derive(Clone, Copy)]
pub struct Return {
    pub place: Place,
    pub sp: u16,
    pub is_popped: bool,
}

/// What an instruction asks: the system, by the call that the registers make; a byte of a port; or that a port takes a byte (the
/// port, then the byte).
#[derive(Clone, Copy)]
pub enum Question {
    System,
    In(u8),
    Out(u8, u8),
}

/// An instruction ran, asks and waits for the reply, or ended the program.
#[derive(Clone, Copy)]
pub enum Turn {
    Ran,
    Asked(Question, Return),
    Ended,
}
