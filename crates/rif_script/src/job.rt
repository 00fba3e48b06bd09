ghost use Rattle.std.specs.Prelude.{◌≤◌, IfErr, IfOk, length};
ghost use Rattle.rif_refusals.specs.Limits.{most_rules};
ghost use Rattle.rif_script.specs.JobClients.{HasItsClients};
ghost use Rattle.rif_script.specs.JobParts.{IsDocumentText, RefusesText};
ghost use Rattle.rif_script.specs.Jobs.{IsJob, IsJobOf, IsText, RefusesJob};

use crate::document_part::parts_of;
use crate::script::{Script, read_script};
use prd_reader::{Prefixes, read_parts};
use rif_lex::tokens;
use rif_refusals::limits::MOST_INPUT_BYTES;
use rif_refusals::{Fault, Refusal};
use rif_safe::safe_doc_of;
use rif_tree::Doc;
use rif_values::{Listed, Text};
use safe_rules::SafeDoc;
use session_states::Item;
use std::alloc::Global;

/// A job: a document of safe rules, the names of the clients in the order of their first lines, and the items of the
/// script in its order, each with its client's number, counted from 0.
///
/// Source: our own (docs/FORMATS.md, "Jobs").
#[derive(Debug, Drop)]
pub struct Job {
    pub doc: SafeDoc,
    pub names: Listed<Text>,
    pub items: Listed<(u32, Item)>,
}

/// The job that the bytes are, or the first refusal that stands: 1 and 2 of the whole input, 3 to 13 of its
/// document, 14, 15, 21 and 16 rule by rule, and then 17 to 20 of its script, each exactly at its place.
///
/// The cost is that of `read_doc_and_job`.
///
/// Source: our own (docs/FORMATS.md, "Jobs" and "Refusals").
pub fn read_job(alloc: Global, bytes: &[u8]) -> Result<Job, Fault>
    ensures read { IfOk result (IsJob bytes.now) }
    ensures clients { IfOk result HasItsClients }
    ensures refused { IfErr result (RefusesJob bytes.now) }
{
    let (_, job) = read_doc_and_job(alloc, bytes)?;
    Ok(job)
}

/// The same, with the job's document as it was read: its variables and conditions stand as in the text.
///
/// The cost is linear in the bytes, and in the IRIs that CURIEs stand for, and beside that what it costs to make the
/// rules safe. Beside the job, memory is taken for the tokens of the document and for the list of what they stand
/// for, which is about as large, for the document and its prefixes, for a pool of texts at a time, and for the tokens
/// of one line of the script.
///
/// Source: our own (docs/FORMATS.md, "Jobs" and "Refusals").
pub fn read_doc_and_job(alloc: Global, bytes: &[u8]) -> Result<(Doc, Job), Fault>
    ensures read { IfOk result (λ read. IsJobOf bytes.now read.0 read.1) }
    ensures clients { IfOk result (λ read. HasItsClients read.1) }
    ensures refused { IfErr result (RefusesJob bytes.now) }
{
    is_text(bytes)?;
    let parts = parts_of(bytes);
    let (doc, prefixes) = read_document(alloc, parts.document)?;
    let rules = safe_doc_of(alloc, &doc)?;
    let script = read_script(alloc, &prefixes, parts.script, parts.first_line)?;
    let Script { names, items, .. } = script;
    let job = Job {
        doc: rules,
        names,
        items,
    };
    Ok((doc, job))
}

// Whether the bytes aren't too many and are UTF-8, or the refusal that says which of the two they aren't.
#[tactic(auto, using(crate::proofs::JobLemmas::long_refused, crate::proofs::JobLemmas::broken_refused))]
fn is_text(bytes: &[u8]) -> Result<(), Fault>
    ensures text { IfOk result (λ done. IsText bytes.now) }
    ensures refused { IfErr result (RefusesJob bytes.now) }
{
    if bytes.len() > MOST_INPUT_BYTES {
        return Err(Fault::Refused(Refusal::InputTooLong));
    }
    if let Err(broken) = str::from_utf8(bytes) {
        let at = broken.valid_up_to() as u64;
        return Err(Fault::Refused(Refusal::NotUtf8 { at }));
    }
    Ok(())
}

// The document that a text is, with its prefixes.
fn read_document(alloc: Global, text: &[u8]) -> Result<(Doc, Prefixes), Fault>
    ensures read { IfOk result (λ parts. IsDocumentText text.now parts.0 parts.1) }
    ensures few { IfOk result (λ parts. length parts.0.rules ≤ most_rules) }
    ensures refused { IfErr result (RefusesText text.now) }
{
    let found = tokens(alloc, text)?;
    read_parts(alloc, &found, text)
}
