ghost use Rattle.std.specs.Prelude.{IfErr, IfOk};
ghost use Rattle.rif_script.specs.Jobs.{RefusesJob};
ghost use Rattle.rif_top.specs.Answer.{IsCheckText};

use prd_reader::write_doc;
use rif_refusals::Fault;
use rif_script::read_doc_and_job;
use std::alloc::Global;

/// The canonical text of the document of the job that the bytes are, as it was read, or why there is none. The cost
/// is that of reading the job, and the text's length.
pub fn check_text(alloc: Global, bytes: &[u8]) -> Result<Vec<u8>, Fault>
    ensures ok { IfOk result (λ text. IsCheckText bytes.now text.items) }
    ensures refused { IfErr result (RefusesJob bytes.now) }
{
    let (doc, _) = read_doc_and_job(alloc, bytes)?;
    let mut text = Vec::new(alloc);
    write_doc(alloc, &mut text, &doc)?;
    Ok(text)
}
