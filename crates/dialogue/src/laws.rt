// A law: a call that one machine may make by what it sees of memory, another that sees more makes too.
ghost use Rattle.dialogue.specs.Sight.{WhoSeesMoreAsksTheSame};

/// A law: where a function, the bytes in D and E and a sight of memory have a shape of a call, they have it for every one who knows
/// these bytes and sees all this and more, and the request is the same. The tagged 8080 sees less than the 8086.
pub fn who_sees_more_asks_the_same()
    ensures { WhoSeesMoreAsksTheSame }
{}
