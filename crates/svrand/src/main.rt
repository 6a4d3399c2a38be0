//! `svrand`, a constrained random value generator for SystemVerilog (IEEE 1800-2017, clause 18).
//!
//! It reads a script of classes and `randomize()` calls from its standard input and prints one line for each call, when it is answered; or it reads cover groups before a script, and prints behind these lines what they count; or clauses with a derivation from them, and says whether it is one.
//! All that it does is `run`, whose contract says what is written, and with which status it ends, by the words and the text alone.
#![tactic(auto)]

use std::alloc::AllocError;
use std::env;
use std::io::ErrorKind;
use std::process::ExitCode;
use svr_edge::{NullSink, StdSink, StdSource};
use svr_program::run;
use svr_status::Status;

/// The words behind the program's name. None where the system does not give them.
fn words(rt: &HostRuntime) -> Result<Vec<String>, AllocError> {
    let mut words = Vec::new(rt.alloc());
    match env::args(rt) {
        Ok(args) => {
            for word in args.skip(1) {
                words.push(word)?;
            }
            Ok(words)
        }
        Err(error) if error.kind() == ErrorKind::OutOfMemory => Err(AllocError),
        Err(_) => Ok(words),
    }
}

fn main(rt: HostRuntime) -> ExitCode {
    let Ok(words) = words(&rt) else {
        return ExitCode::from(Status::NoMemory.code());
    };
    let mut src = StdSource::new(rt.stdin());
    let mut out = StdSink::new(rt.stdout());
    let mut journal = NullSink::new();
    let status = run(rt.alloc(), &words, &mut src, &mut out, &mut journal);
    ExitCode::from(status.code())
}
