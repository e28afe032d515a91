//! The program `isel`: it makes the real files and streams, and hands them to the commands.
#![tactic(auto)]

use isel_base::{RealFiles, RealOut};
use isel_cmd::run_here;
use std::alloc::{AllocError, Global};
use std::env;
use std::process::ExitCode;

/// The words of the command line, without the program's name. Words that are no text have no form,
/// as no words have none.
fn words<R: env::Env + AllocGlobal>(rt: &R) -> Result<Vec<String>, AllocError> {
    let mut words = Vec::new(rt.alloc());
    if let Ok(all) = env::args(rt) {
        for word in all.skip(1) {
            words.push(word)?;
        }
    }
    Ok(words)
}

fn main(rt: HostRuntime) -> ExitCode {
    let mut files = RealFiles::new(&rt);
    let mut out = RealOut::new(rt.stdout());
    let mut notes = RealOut::new(rt.stderr());
    let status = match words(&rt) {
        Ok(words) => run_here(rt.alloc(), &words, &mut files, &mut out, &mut notes),
        Err(AllocError) => 6,
    };
    ExitCode::from(status)
}
