ghost use Rattle.std.specs.Prelude.{◌↔◌, IsNone};
ghost use Rattle.rif_top.specs.Statuses.{IsAnswered};

use prd_explain::{Explanation, explain, explain_line, explain_rule, lines_of};
use prd_reader::read_doc;
use rif_lex::tokens;
use rif_refusals::{Fault, Refusal};
use rif_script::{doc_part, read_job};
use rif_top::Status;
use rif_values::OutOfMemory;
use std::alloc::Global;

/// How the program is called.
const USAGE: &str =
    "usage: hauskimu run [FILE]      runs the job in FILE, or else on standard input, and prints its run
       hauskimu check [FILE]    reads it without running it, and prints its document in canonical text
docs/FORMATS.md describes jobs, runs, refusals and statuses";

/// What people are told of how a run ended, without a line feed at its end. A run that wrote its answer has none.
pub fn message_of(status: Status) -> Option<&'static str>
    ensures { IsNone result ↔ IsAnswered status }
{
    match status {
        Status::Done | Status::Refused => None,
        Status::Usage => Some(USAGE),
        Status::ReadFault => Some("hauskimu: the input could not be read"),
        Status::WriteFault => Some("hauskimu: the output could not be written"),
        Status::OutOfMemory => Some("hauskimu: out of memory"),
    }
}

/// Lines on why a run of an input, or a check of it, was refused: the place and what is wrong there, the line of the
/// input, and what else has to do with it. They end without a line feed, and an input that has no refusal has none.
/// The cost is that of reading the input once more.
pub fn note_on(alloc: Global, input: &[u8]) -> Result<Option<Vec<u8>>, OutOfMemory> {
    match read_job(alloc, input) {
        Ok(_) => Ok(None),
        Err(Fault::Refused(refusal)) => {
            let explanation = explanation_of(alloc, input, &refusal)?;
            Ok(Some(lines_of(alloc, input, &explanation)?))
        }
        Err(Fault::OutOfMemory) => Err(OutOfMemory),
    }
}

// What is said of a refusal of an input.
fn explanation_of(
    alloc: Global,
    input: &[u8],
    refusal: &Refusal,
) -> Result<Explanation, OutOfMemory> {
    match refusal.number() {
        4..=16 | 21 => explanation_in_document(alloc, doc_part(input), refusal),
        _ => explain_line(alloc, input, refusal),
    }
}

// What is said of a refusal of a document. Where the document can be read, it is a rule's.
fn explanation_in_document(
    alloc: Global,
    document: &[u8],
    refusal: &Refusal,
) -> Result<Explanation, OutOfMemory> {
    let Ok(found) = tokens(alloc, document) else {
        return Err(OutOfMemory);
    };
    match read_doc(alloc, &found, document) {
        Ok(doc) => explain_rule(alloc, found.as_slice(), document, &doc, refusal),
        Err(Fault::Refused(_)) => explain(alloc, found.as_slice(), document, refusal),
        Err(Fault::OutOfMemory) => Err(OutOfMemory),
    }
}
