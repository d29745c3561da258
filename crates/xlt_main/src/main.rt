// The program that is run: `main` hands the words after its name, the host of real files and the standard output to `xlt`, and ends with
// the status that it answers.
//
// `main` has no contract of its own: what is proved of the program stands in `xlt_app`.
#![tactic(auto)]

use host::RealHost;
use std::alloc::AllocGlobal;
use std::io::ErrorKind;
use std::process::ExitCode;
use std::rt::Env;
use std::{env, io};
use xlt_app::xlt;

// The words after the program's name.
fn words(rt: &(impl Env + AllocGlobal)) -> io::Result<Vec<String>> {
    let mut words = env::args(rt)?;
    let _name = words.next();
    Ok(words.collect(rt.alloc())?)
}

// A word that is not UTF-8 makes the words no command, as no words at all do.
fn main(rt: HostRuntime) -> ExitCode {
    let alloc = rt.alloc();
    let words = match words(&rt) {
        Ok(words) => words,
        Err(error) if error.kind() == ErrorKind::OutOfMemory => {
            let _ = rt.println("out of memory");
            return ExitCode::from(5);
        }
        Err(_) => Vec::new(alloc),
    };
    let mut host = RealHost::new(rt);
    ExitCode::from(xlt(alloc, words, &mut host))
}
