//! Checks or runs a rule job: reads it from standard input, and writes its document or its run to standard
//! output. All of that is done by the top call, `rif_top::rif_run`.
//!
//! | File | Has |
//! |---|---|
//! | `command_line.rt` | the words that the program was started with |
//! | `note.rt` | what people are told on standard error: why there is no answer, or why an input is refused |
//!
//! Begin at `main`.
#![tactic(auto)]

mod command_line;
mod note;
#[cfg(test)]
mod tests;

use command_line::words;
use note::{message_of, note_on};
use rif_script::{StdSink, StdSource};
use rif_top::{Kept, Status, rif_run};
use std::alloc::Global;
use std::process::ExitCode;

fn main(rt: HostRuntime) -> ExitCode {
    let alloc = rt.alloc();
    let mut source = Kept::new(alloc, StdSource::new(rt.stdin()));
    let mut sink = StdSink::new(rt.stdout());
    let status = match words(&rt, alloc) {
        Ok(words) => rif_run(alloc, &words, &mut source, &mut sink),
        Err(_) => Status::OutOfMemory,
    };
    if let Some(message) = message_of(status) {
        let _ = eprintln!(rt; "{message}");
    }
    if status == Status::Refused
        && let Some(input) = source.bytes()
    {
        explain_refusal(&rt, alloc, input);
    }
    ExitCode::from(status.code())
}

// Says on standard error why an input is refused. Where no memory is found for it, nothing is said.
fn explain_refusal(rt: &HostRuntime, alloc: Global, input: &[u8]) {
    if let Ok(Some(note)) = note_on(alloc, input) {
        if let Ok(text) = str::from_utf8(note.as_slice()) {
            let _ = eprintln!(rt; "{text}");
        }
    }
}
