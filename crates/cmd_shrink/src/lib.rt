// The command `shrink`: reads a source and a text that is shown for it, and writes what is left of the text where each instruction is left out
// that the check does without.
//
// Proved: clause `gives` of `shrink` (`ShrinkGives`) has each status with its cause: after 0 OUT is the text of what is left (`IsShrunk`), and
// its line was said; 17 comes only where the source is accepted and the text has an image and more than 2,048 statements, 8 only where it is
// not shown, and 1, 3, 4, 5, 10, 13 and 14 by their causes. Clause `completes` (`ShrinkCompletes`): where no call of the host fails and both
// files are told and within their limits, the status is that of the one thing that their bytes come to, want of memory aside. Clause
// `headline` (`ShrunkHeadline`): after 0 the lines that were written are some of the text's, in their order, and have no more code; OUT is a
// text with an image, whose code is read in one way; and program and image are `Same`. All memory is taken before OUT is begun; no clause
// carries that.
#![tactic(auto)]

mod leaving;
mod shrinking;

pub use shrinking::shrink;
