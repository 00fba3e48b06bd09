//! Values for the tests, read from the text of jobs.
use rif_facts::Facts;
use rif_refusals::Fault;
use rif_script::{Job, read_job};
use rif_values::Change;
use safe_rules::SafeDoc;
use session_states::Item;
use std::alloc::Global;

/// The document of some rules, which are safe.
pub fn doc_of(alloc: Global, rules: &str) -> Result<SafeDoc, Fault> {
    let text = format!(in alloc; "Document(Group({rules}))")?;
    let Job { doc, .. } = read_job(alloc, text.as_bytes())?;
    Ok(doc)
}

/// The changes of a script.
pub fn changes_of(alloc: Global, script: &str) -> Result<Vec<Change>, Fault> {
    let text = format!(in alloc; "Document()\n%%\n{script}")?;
    let job = read_job(alloc, text.as_bytes())?;
    let mut changes = Vec::new(alloc);
    for (_, item) in job.items.as_slice() {
        if let Item::Change(change) = item {
            changes.push(change.copy()?)?;
        }
    }
    Ok(changes)
}

/// The facts that the changes of a script lead to from none.
pub fn facts_of(alloc: Global, script: &str) -> Result<Facts, Fault> {
    let changes = changes_of(alloc, script)?;
    Ok(Facts::new(alloc).after(alloc, changes.as_slice())?)
}
