//! The program `nsd`: a scheduling server that tenants who do not trust each other can share.
#![tactic(auto)]

mod host;

use crate::host::conclude;
use ns_command_line::run_words;
use ns_entropy::Random;
use ns_faults::{print_fault, print_no_random, print_no_words};
use ns_http::{ConnFault, Counted};
use rand::make_rng;
use rand::rngs::StdRng;
use std::alloc::{AllocError, Global};
use std::env;
use std::process::ExitCode;

/// The words of the command line as texts.
fn texts<'a>(alloc: Global, words: &'a [String]) -> Result<Vec<&'a str>, AllocError> {
    words.iter().map(|word| word.as_str()).collect(alloc)
}

fn main(rt: HostRuntime) -> ExitCode {
    let mut errors = Counted::new(rt.stderr());
    let args = match env::args(&rt) {
        Ok(args) => args,
        Err(error) => return ExitCode::from(print_no_words(&error, &mut errors)),
    };
    let words: Result<Vec<String>, AllocError> = args.collect(rt.alloc());
    let Ok(words) = words else {
        return ExitCode::from(print_fault(ConnFault::Memory, &mut errors));
    };
    let Ok(texts) = texts(rt.alloc(), words.as_slice()) else {
        return ExitCode::from(print_fault(ConnFault::Memory, &mut errors));
    };
    let generator: StdRng = match make_rng(&rt) {
        Ok(generator) => generator,
        Err(_) => return ExitCode::from(print_no_random(&mut errors)),
    };
    let outcome = run_words(
        rt.alloc(),
        texts.as_slice(),
        Random::new(generator),
        rt.stdin(),
        rt.stdout(),
        &mut errors,
    );
    let ended = conclude(&rt, rt.alloc(), outcome, &mut errors);
    ExitCode::from(ended.status)
}
