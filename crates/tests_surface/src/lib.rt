// Tests of the types and calls that other programs may use, each reached by the crate and the name that it has there, and called once with
// ample memory, so that none answers "out of memory"; laws and the untagged 8080 aside. One program, which prints the letter A, goes through
// all of them. Then sources and texts in pieces, read and written by a host that gives and takes one byte at a time too; commented texts of
// sources that no line of text can show; and the file copier of the CP/M 2.2 Operating System Manual, section 5.4, on each machine and on
// both, with the disk that it leaves.
#![tactic(auto)]

#[cfg(test)]
mod calls;
#[cfg(test)]
mod comments;
#[cfg(test)]
mod disks;
#[cfg(test)]
mod machines;
#[cfg(test)]
mod pieces;
#[cfg(test)]
mod program;
#[cfg(test)]
mod source;
#[cfg(test)]
mod sparing;
#[cfg(test)]
mod tables;
#[cfg(test)]
mod texts;
