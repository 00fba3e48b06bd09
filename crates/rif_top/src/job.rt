ghost use Rattle.std.specs.Prelude.{IfErr, IfOk};
ghost use Rattle.rif_script.specs.Jobs.{RefusesJob};
ghost use Rattle.rif_top.specs.Runs.{IsRunOf, IsRunText};

use prd_relation::laws::{replays_are_lawful, turns_tell_their_facts};
use rif_engine::replay;
use rif_refusals::Fault;
use rif_script::laws::cut_is_lawful;
use rif_script::{Job, batches_of, read_job, write_run};
use rif_values::OutOfMemory;
use std::alloc::Global;

/// The text of the run of the job that the bytes are, or why they are none. It costs what `rif_engine::replay` does.
pub fn run_text(alloc: Global, bytes: &[u8]) -> Result<Vec<u8>, Fault>
    ensures ok { IfOk result (λ text. IsRunText bytes.now text.items) }
    ensures refused { IfErr result (RefusesJob bytes.now) }
{
    let job = read_job(alloc, bytes)?;
    Ok(text_of_job(alloc, &job)?)
}

// The text of a job's run. That its batches are those of a run, and how many facts its turns leave, follows from the
// laws.
fn text_of_job(alloc: Global, job: &Job) -> Result<Vec<u8>, OutOfMemory>
    ensures { IfOk result (λ text. IsRunOf job.now text.items) }
{
    cut_is_lawful();
    replays_are_lawful();
    turns_tell_their_facts();
    let (batches, left) = batches_of(alloc, job)?;
    let engine = replay(alloc, job.doc.copy(alloc)?, batches)?;
    let mut text = Vec::new(alloc);
    write_run(
        alloc,
        &mut text,
        job,
        engine.turns(),
        left.as_slice(),
        engine.facts().len(),
    )?;
    Ok(text)
}
