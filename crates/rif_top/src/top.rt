ghost use Rattle.std.specs.Prelude.{◌≡◌, ◌-◌, ◌<◌, ◌^◌, ◌↔◌, IsTrue};
ghost use Rattle.rif_top.specs.Commands.{AreAccepted};
ghost use Rattle.rif_top.specs.Statuses.{IsAnswered, IsDoneOrNoMemory, IsRefusedOrNoMemory};
ghost use Rattle.rif_top.specs.Top.{AreRefused, AreTaken, WritesAnswer, WritesFrontOfAnswer};

use crate::answer::answer_to;
use crate::reading::{MOST_BYTES_READ, ReadError, read_up_to};
use crate::status::Status;
use crate::words::read_command;
use crate::writing::write_text;
use rif_script::{Sink, Source};
use rif_values::{OutOfMemory, Text};
use std::alloc::Global;

/// Does what the words say with a job from `src`: for `run` it writes the job's run to `out`, for `check`
/// its document in canonical text, and in place of either the line of a refusal.
///
/// The words are those behind the program's name. Every text is made whole before its first byte is
/// given, and an object that has failed isn't called again. The cost is that of the job's run, or of
/// reading the job.
///
/// Source: our own (docs/FORMATS.md, "Words" and "Statuses").
pub fn rif_run<S: Source, K: Sink>(
    alloc: Global,
    words: &Vec<Text>,
    src: &mut S,
    out: &mut K,
) -> Status
    requires source_count { S.faults src.old < 2 ^ 64 - 1 }
    requires sink_count { K.faults out.old < 2 ^ 64 - 1 }
    ensures usage { (result ≡ Status.Usage) ↔ (AreAccepted words.now.items → ⊥) }
    ensures untouched { result ≡ Status.Usage → (src.new ≡ src.old) × (out.new ≡ out.old) }
    ensures read_fault { result ≡ Status.ReadFault →
        (S.faults src.old < S.faults src.new) × (out.new ≡ out.old) }
    ensures out_of_memory { result ≡ Status.OutOfMemory →
        (S.faults src.new ≡ S.faults src.old) × (out.new ≡ out.old) }
    ensures write_fault { result ≡ Status.WriteFault →
        (K.faults out.old < K.faults out.new)
        × WritesFrontOfAnswer words.now.items (S.left src.old) (S.left src.new)
        (K.written out.old) (K.written out.new) }

    // After `Done` and `Refused` both counts of faults stand, and the answer's text was written whole.
    ensures done_and_refused { IsAnswered result →
        (S.faults src.new ≡ S.faults src.old) × (K.faults out.new ≡ K.faults out.old) }
    ensures answer { IsAnswered result →
        WritesAnswer words.now.items result (S.left src.old) (S.left src.new)
        (K.written out.old) (K.written out.new) }

    // A command, an input that is a job, and no fault lead to `Done`, where memory suffices.
    ensures complete { AreTaken words.now.items (S.left src.old) → S.faults src.new ≡ S.faults src.old
        → K.faults out.new ≡ K.faults out.old → IsDoneOrNoMemory result }

    // A command, an input that has a refusal, and no fault lead to `Refused`, where memory suffices.
    ensures refused { AreRefused words.now.items (S.left src.old) → S.faults src.new ≡ S.faults src.old
        → K.faults out.new ≡ K.faults out.old → IsRefusedOrNoMemory result }
{
    let command = match read_command(alloc, words.as_slice()) {
        Ok(Some(command)) => command,
        Ok(None) => return Status::Usage,
        Err(OutOfMemory) => return Status::OutOfMemory,
    };
    let input = match read_up_to(alloc, src, MOST_BYTES_READ) {
        Ok(input) => input,
        Err(ReadError::Failed) => return Status::ReadFault,
        Err(ReadError::OutOfMemory) => return Status::OutOfMemory,
    };
    let Ok(answer) = answer_to(alloc, command, input.as_slice()) else {
        return Status::OutOfMemory;
    };
    match write_text(out, answer.text.as_slice()) {
        Ok(()) => answer.status,
        Err(_) => Status::WriteFault,
    }
}
