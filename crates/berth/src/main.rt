//! Reads a page script from standard input, and answers each call by one line.
#![tactic(auto)]

mod answers;
mod session;

use session::answer_script;
use std::io;
use std::io::{Read, Write};
use std::process::ExitCode;

/// All of standard input.
fn read_input(rt: &HostRuntime) -> io::Result<Vec<u8>> {
    let mut text = Vec::new(rt.alloc());
    rt.stdin().read_to_end(&mut text)?;
    Ok(text)
}

/// Says on standard error what could not be done, and hands the result on.
fn told(rt: &HostRuntime, what: &str, done: io::Result<()>) -> io::Result<()> {
    if done.is_err() {
        eprintln!(rt; "berth: cannot {what}")?;
    }
    done
}

/// Prints the answers to a script, or why it is refused.
fn answer(rt: &HostRuntime, text: &[u8]) -> io::Result<()> {
    match answer_script(rt.alloc(), text) {
        Ok(answers) => {
            let done = rt.stdout().write_all(answers.as_bytes());
            told(rt, "write the answers", done)
        }
        Err(error) => {
            eprintln!(rt; "berth: {error}")?;
            Err(io::Error::from(io::ErrorKind::InvalidData))
        }
    }
}

/// Answers what standard input says.
fn run(rt: &HostRuntime) -> io::Result<()> {
    match read_input(rt) {
        Ok(text) => answer(rt, &text),
        Err(error) => told(rt, "read the script", Err(error)),
    }
}

/// What went wrong is said by then, so the status is all that is left to tell.
fn main(rt: HostRuntime) -> ExitCode {
    match run(&rt) {
        Ok(()) => ExitCode::SUCCESS,
        Err(_said) => ExitCode::FAILURE,
    }
}
