//! The program `prv`, which compares two versions of one program over their common input space.
#![tactic(auto)]

mod command;
mod explore;
mod generate;
mod laws;
mod pairing;
mod point;
mod progress;
mod read;
mod refusal;
mod refusal_line;
mod report;
mod run;
mod slice;
mod status;
#[cfg(test)]
mod tests;
mod top;

use progress::TerminalProgress;
use prv_io::{HostFiles, HostSink};
use refusal::Refusal;
use std::process::ExitCode;
use std::{env, io};
use top::{plain, refuse};

fn main(rt: HostRuntime) -> ExitCode {
    let mut err = HostSink::new(rt.stderr());
    let words = match words_of(&rt) {
        Ok(words) => words,
        Err(refusal) => return ExitCode::from(refuse(&mut err, refusal)),
    };
    let texts: Vec<&str> = match words.iter().map(|word| word.as_str()).collect(rt.alloc()) {
        Ok(texts) => texts,
        Err(_) => return ExitCode::from(refuse(&mut err, Refusal::Memory)),
    };
    let mut files = HostFiles::new(&rt);
    let mut out = HostSink::new(rt.stdout());
    let mut progress = TerminalProgress::new(rt.stderr(), &rt);
    let status = plain(
        rt.alloc(),
        texts.as_slice(),
        &mut files,
        &mut out,
        &mut err,
        &mut progress,
    );
    ExitCode::from(status)
}

/// The words of the command line behind the program's name. Where they are no text, the first has no
/// reading.
fn words_of(rt: &HostRuntime) -> Result<Vec<String>, Refusal> {
    match env::args(rt) {
        Ok(words) => Ok(words.skip(1).collect(rt.alloc())?),
        Err(error) if error.kind() == io::ErrorKind::OutOfMemory => Err(Refusal::Memory),
        Err(_) => Err(Refusal::Usage { word: 0 }),
    }
}
