ghost use Rattle.std.specs.Prelude.{◌≡◌, IfErr, IfOk};
ghost use Rattle.rif_script.specs.Jobs.{RefusesJob};
ghost use Rattle.rif_script.specs.RefusalLine.{refusal_line};
ghost use Rattle.rif_top.specs.Answer.{IsAnswerTo, IsTextFor};

use crate::check::check_text;
use crate::command::Command;
use crate::job::run_text;
use crate::status::Status;
use rif_refusals::{Fault, Refusal};
use rif_script::write_refusal;
use rif_values::OutOfMemory;
use std::alloc::Global;

/// What is written for an input, and the status that says so.
#[derive(Drop)]
pub struct Answer {
    pub status: Status,
    pub text: Vec<u8>,
}

/// The answer to an input: the text that the command makes of it with `Done`, or the line of its refusal
/// with `Refused`.
pub fn answer_to(alloc: Global, command: Command, input: &[u8]) -> Result<Answer, OutOfMemory>
    ensures { IfOk result (λ answer. IsAnswerTo command input.now answer.status answer.text.items) }
{
    match text_for(alloc, command, input) {
        Ok(text) => Ok(Answer {
            status: Status::Done,
            text,
        }),
        Err(Fault::Refused(refusal)) => Ok(Answer {
            status: Status::Refused,
            text: refusal_text(alloc, &refusal)?,
        }),
        Err(Fault::OutOfMemory) => Err(OutOfMemory),
    }
}

fn text_for(alloc: Global, command: Command, input: &[u8]) -> Result<Vec<u8>, Fault>
    ensures ok { IfOk result (λ text. IsTextFor command input.now text.items) }
    ensures refused { IfErr result (RefusesJob input.now) }
{
    match command {
        Command::Check => check_text(alloc, input),
        Command::Run => run_text(alloc, input),
    }
}

fn refusal_text(alloc: Global, refusal: &Refusal) -> Result<Vec<u8>, OutOfMemory>
    ensures { IfOk result (λ text. text.items ≡ refusal_line refusal.now) }
{
    let mut text = Vec::new(alloc);
    write_refusal(alloc, &mut text, refusal)?;
    Ok(text)
}
