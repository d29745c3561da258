// The command `translate`: reads the source of a command and writes the text of its program, the plain one where the words ask for it and
// else the lean one, with the lines of the source as comments where they ask for these.
//
// Proved: clause `gives` of `translate` (`TranslateGives`) has each status with its cause, what the output holds and what is said. 0: the
// bytes of the source's file (where the host tells them) are the source of a program with a text in that mode whose code fits; that text,
// or with `--comments` its commented text (`IsWrittenText`), took the output's place and no other file has changed; it is read as the
// statements of the text, in their order, with numbers of lines that rise, and has an image whose code is read in one way; program and
// image are `Same`; the line of status 0 was said. 1: the bytes are no source, by the line and the rule that are said. 13: they are the
// source of a program whose code has the size that is said, above 65,535 bytes. 3, 4, 5 and 14: a read or a write failed, memory ran out,
// or the file is too long. Clause `completes` (`Completes`), the other direction: where no call of the host failed, the file is told and
// within its limit, and memory suffices, the status is 0 exactly where the bytes are the source of a program whose code fits, 13 with the
// size where it does not, and else 1 with the one line and rule. Comments change neither status nor line.
#![tactic(auto)]

mod translation;

pub use translation::translate;
