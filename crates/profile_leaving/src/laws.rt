// Laws: no run of the tagged 8080 passes a place of the list, the states of runs are those of which that speaks, and the list goes by
// strictly ascending addresses. The first two stand on the soundness of outcomes (`sound_80`).

ghost use Rattle.profile_leaving.specs.Left.{PlacesAreLeft, PlacesAscend, RunsKeepStates};

use flow::blocks_cut_the_program;
use sym_sound::sound_80;

/// A law, of every program: no run passes a listed place of it.
pub fn places_are_left()
    ensures { PlacesAreLeft }
{
    blocks_cut_the_program();
    sound_80();
}

/// A law, of every program: while a run of it from its start goes on, with any page and any replies, its states are those of which
/// `places_are_left` speaks.
pub fn runs_keep_states()
    ensures { RunsKeepStates }
{
    sound_80();
}

/// A law, of every program: its places ascend, and no two have one address.
pub fn places_ascend()
    ensures { PlacesAscend }
{}
