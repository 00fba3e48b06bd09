//! Limits that are passed, in words.
use refusal_lines::push_number;
use rif_refusals::Counted;
use rif_refusals::limits::{MOST_ACTIONS, MOST_PATTERNS, MOST_RULES, MOST_VARIABLES};
use rif_values::OutOfMemory;

/// How many there may be of what a document or a rule has too many of.
pub fn push_limit(out: &mut Vec<u8>, what: Counted) -> Result<(), OutOfMemory> {
    let (owner, most) = limit_of(what);
    out.extend_from_slice(b"; ")?;
    out.extend_from_slice(owner.as_bytes())?;
    out.extend_from_slice(b" at most ")?;
    push_number(out, most)
}

// What has them, and how many at most.
fn limit_of(what: Counted) -> (&'static str, u64) {
    match what {
        Counted::Rules => ("a document has", MOST_RULES),
        Counted::Variables => ("a rule has", MOST_VARIABLES),
        Counted::Patterns => ("a rule's conditions have", MOST_PATTERNS),
        Counted::Actions => ("a rule has", MOST_ACTIONS),
    }
}
