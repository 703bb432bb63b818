//! Maps audio channels: a capture on standard input, its result on standard output.
#![tactic(auto)]

mod command;
mod commands;
mod end;
mod input;
#[cfg(test)]
mod tests;
mod top;
mod words;

use chan_io::{StdSink, StdSource};
use std::env;
use std::io::ErrorKind;
use std::process::ExitCode;
use top::{chanmap, without_words};

/// Does what the words after the program's name say. Where one of them is no text, there are none.
fn main(rt: HostRuntime) -> ExitCode {
    let alloc = rt.alloc();
    let mut src = StdSource::new(rt.stdin());
    let mut out = StdSink::new(rt.stdout());
    let mut err = StdSink::new(rt.stderr());
    let mut words = Vec::new(alloc);
    match env::args(&rt) {
        Ok(args) => {
            for word in args.skip(1) {
                if words.push(word).is_err() {
                    return ExitCode::from(without_words(&mut err));
                }
            }
        }
        Err(error) if error.kind() == ErrorKind::OutOfMemory => {
            return ExitCode::from(without_words(&mut err));
        }
        Err(_) => {}
    }
    ExitCode::from(chanmap(alloc, &words, &mut src, &mut out, &mut err))
}
