//! The program: the words of its command line, real files, standard output and standard error, handed to the call that serves them.
#![tactic(auto)]

use fp_main::{Status, serve};
use fp_outside::{HostFiles, HostSink, OpenGate};
use std::io::ErrorKind;
use std::process::ExitCode;
use std::rt::Env;
use std::{env, io};

/// The words behind the program's name.
fn words<R: Env + AllocGlobal>(rt: &R) -> io::Result<Vec<String>> {
    Ok(env::args(rt)?.skip(1).collect(rt.alloc())?)
}

/// Says why the words can't be had: one isn't UTF-8, or there is no memory for them.
fn refuse_words(rt: &impl Eprint, error: &io::Error) -> Status {
    let (status, line) = match error.kind() {
        ErrorKind::OutOfMemory => (Status::NoMemory, "fpp: no memory"),
        _ => (Status::Usage, "fpp: a word is not UTF-8"),
    };
    match rt.eprintln(line) {
        Ok(()) => status,
        Err(_) => Status::WriteFault,
    }
}

fn main(rt: HostRuntime) -> ExitCode {
    let status = match words(&rt) {
        Ok(words) => serve(
            &rt,
            rt.alloc(),
            words.as_slice(),
            &mut HostFiles::new(&rt),
            &mut HostSink::new(rt.stdout()),
            &mut HostSink::new(rt.stderr()),
            &OpenGate,
        ),
        Err(error) => refuse_words(&rt, &error),
    };
    ExitCode::from(status.code())
}
