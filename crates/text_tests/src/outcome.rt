//! What a job leads to, as text.
use rif_refusals::Fault;
use rif_script::{Job, read_job, write_refusal, write_run};
use rif_values::OutOfMemory;
use session_states::Entry;
use std::alloc::Global;
use std::process::Abort;
use std::test::Fail;

/// The items of a job, as a run shows those that are left, or the line of its refusal.
pub fn outcome(alloc: Global, bytes: &[u8]) -> Result<Vec<u8>, OutOfMemory> {
    let mut out = Vec::new(alloc);
    match read_job(alloc, bytes) {
        Ok(job) => show_items(alloc, &mut out, &job)?,
        Err(Fault::Refused(refusal)) => write_refusal(alloc, &mut out, &refusal)?,
        Err(Fault::OutOfMemory) => return Err(OutOfMemory),
    }
    Ok(out)
}

fn show_items(alloc: Global, out: &mut Vec<u8>, job: &Job) -> Result<(), OutOfMemory> {
    let mut left = Vec::new(alloc);
    for (client, item) in job.items.as_slice() {
        left.push(Entry {
            client: *client,
            rank: 0,
            item: item.copy()?,
        })?;
    }
    write_run(alloc, out, job, &[], left.as_slice(), 0)
}

/// Asserts that a job is refused so, where what stands behind `refused` is wanted.
pub fn is_refused(rt: &impl Abort, alloc: Global, job: &str, wanted: &str) -> Result<(), Fail> {
    let found = outcome(alloc, job.as_bytes())?;
    let wanted = format!(in alloc; "refused {wanted}\n")?;
    assert_eq!(rt; str::from_utf8(found.as_slice())?, wanted.as_str(), "{job}");
    Ok(())
}

/// Asserts that a job is read, and has items of these lines.
pub fn is_read(rt: &impl Abort, alloc: Global, job: &str, lines: &str) -> Result<(), Fail> {
    let found = outcome(alloc, job.as_bytes())?;
    let wanted = format!(in alloc; "{lines}end turns 0 firings 0 facts 0\n")?;
    assert_eq!(rt; str::from_utf8(found.as_slice())?, wanted.as_str(), "{job}");
    Ok(())
}
