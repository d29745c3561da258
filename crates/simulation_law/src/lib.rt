// Laws alone: a text that matches its program simulates it. A forward simulation, block by block, with a bound on the turns.
//
// `agreeing_terms_stand`, `agreeing_actions_stand`: where what both machines began with and have loaded stands for one another, so do the
// values of terms that agree, and memory after actions that agree. `linked_runs_have_environments`: linked runs have such starts, whatever
// is in parts that are not kept. `matching_blocks_stand`: from linked runs at a block that the text matches (`block_reason` is None), the
// 8080 leaves the profile within the block, or both run it; then memories, SP and kept parts stand for one another, the ways agree, and
// what a call by `INT 224` loses is not needed. `block_is_linked`: from linked runs at a block of k instructions, or at EXIT, which counts
// as a block of one, 1 to 16k turns of the 8086 lead to runs that are paired with those of the 8080 after k turns, unless these leave the
// profile; and an event joins the 8080's dialogue in the last of them alone; so for each way out of a block and whatever replies of bytes.
// `blocks_follow`: from each start, as far as the 8080 has come without leaving the profile, there are numbers of turns after which the
// runs are paired, of the 8080 at most 15 before, and it has said no more since. `matches_is_same`: so a program and the image of lines
// that match it are `Same`.
#![tactic(auto)]

ghost use Rattle.simulation_law.specs.Laws.{BlocksFollow, MatchesIsSame};
ghost use Rattle.simulation_law.specs.Linked.{AgreeingTermsStand};
ghost use Rattle.simulation_law.specs.Replayed.{AgreeingActionsStand};
ghost use Rattle.simulation_law.specs.Environments.{LinkedRunsHaveEnvs};
ghost use Rattle.simulation_law.specs.Matching.{MatchingBlocksStand};
ghost use Rattle.simulation_law.specs.Linking.{BlocksAreLinked};

use dialogue::who_sees_more_asks_the_same;
use sym_block_def::steps_keep_sorts;
use sym_sound::{sound_80, sound_86};
use sym_terms::{made_terms_have_sorts, made_terms_keep_values};

/// A law, of every program and lines with an image that match it by a cut and some parts that are kept: as far as the 8080's run has
/// come without leaving the profile, there are numbers of turns after which the two runs are paired, from each start page, memory,
/// start, list of choices and of replies; of the 8080 at most 15 turns before, and it has said no more since.
pub fn blocks_follow()
    ensures { BlocksFollow }
{
    block_is_linked();
}

/// A law: such lines mean the same as the program (`Same`).
pub fn matches_is_same()
    ensures { MatchesIsSame }
{
    block_is_linked();
}

/// A law: where what the two machines started with and have loaded stands for one another, so does what terms that agree stand for:
/// bytes, words and flags.
pub fn agreeing_terms_stand()
    ensures { AgreeingTermsStand }
{
    made_terms_keep_values();
    made_terms_have_sorts();
}

/// A law: where memory stands for memory, it does so after loads and stores that agree, and so does what was loaded.
pub fn agreeing_actions_stand()
    ensures { AgreeingActionsStand }
{
    agreeing_terms_stand();
}

/// A law: linked runs have environments that stand for one another. That of the 8086 has what the machine holds in the parts that
/// are kept, and in each other part a value that stands for the 8080's.
pub fn linked_runs_have_environments()
    ensures { LinkedRunsHaveEnvs }
{}

/// A law: where runs are linked at a block that the text matches, the 8080 leaves the profile within the block; or both machines run
/// it, their memories, SP and the parts that are kept where the 8080 goes stand for one another, and the ways that they go agree.
pub fn matching_blocks_stand()
    ensures { MatchingBlocksStand }
{
    steps_keep_sorts();
    sound_80();
    sound_86();
    agreeing_terms_stand();
    agreeing_actions_stand();
    linked_runs_have_environments();
}

/// A law, of every program and text that matches each block of a cut: from linked runs at a block of k instructions, or at EXIT, which
/// counts as a block of one, some turns of the 8086, 1 to 16k, lead to runs that are paired with those of the 8080 after k turns, unless
/// these leave the profile. Whether or not they do, an event joins the 8080's dialogue in the last of the k turns alone.
pub fn block_is_linked()
    ensures { BlocksAreLinked }
{
    agreeing_terms_stand();
    who_sees_more_asks_the_same();
    sound_86();
    matching_blocks_stand();
}
