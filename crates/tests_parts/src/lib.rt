// Tests over the public calls of crates. Of what the machines and the commands stand on: values of the tagged 8080, sets of addresses,
// lines that are held, instructions that the 8080 has not and bytes that are none of the 8086, the host of real files, the call table and
// the rules that calls break, replies and ports, the pool filled, refused, cut and filled again, each maker of terms, and a chain of 5,000
// sums of a term with itself. Of the source language: the limits of sources and names, faults that stay, and a program that is asked by
// addresses. Of ASM-86 texts: lines by their statements, and what a reader tells when. Of command files: cut, changed, of other kinds, and
// as large as they may be. Expected values are by the manuals and this project's own tables, encodings from NASM. What single sources,
// lines and texts are read as is in `cases_asm`; plain texts are in `cases_symrun`.
//
// Two tests are proofs: `equations_hold` (each equation of terms, from both sides) and `solve_six_edges` (six edges of a flow graph are
// solved in as many steps as the contract counts).
#![tactic(auto)]

#[cfg(test)]
mod addresses;
#[cfg(test)]
mod command_files;
mod equations;
#[cfg(test)]
mod hosts;
#[cfg(test)]
mod instructions80;
#[cfg(test)]
mod instructions86;
#[cfg(test)]
mod lines;
#[cfg(test)]
mod lines80;
#[cfg(test)]
mod lines86;
#[cfg(test)]
mod memory;
#[cfg(test)]
mod names80;
#[cfg(test)]
mod pool;
#[cfg(test)]
mod ports;
#[cfg(test)]
mod program80;
#[cfg(test)]
mod replies;
#[cfg(test)]
mod shapes;
mod steps;
#[cfg(test)]
mod terms;
#[cfg(test)]
mod texts86;
#[cfg(test)]
mod values;

pub use equations::equations_hold;
pub use steps::solve_six_edges;
