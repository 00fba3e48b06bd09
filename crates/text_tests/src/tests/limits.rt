//! Documents and jobs at the edges of their limits.
use crate::outcome::{is_read, is_refused, outcome};
use rif_script::read_job;
use std::alloc::{AllocError, Global};
use std::process::Abort;
use std::test::Fail;

// The document of a rule with 32 variables, patterns and actions, and 64 brackets open in its condition. Three stand
// round the condition, and an atom opens one more.
fn greatest_rule(alloc: Global) -> Result<String, AllocError> {
    let mut text = String::from_str(alloc, "Document(Group(Forall")?;
    for place in 0..32 {
        write!(text, " ?v{place}")?;
    }
    text.push_str(" (If And(")?;
    for _ in 5..64 {
        text.push_str("And(")?;
    }
    for place in 0..32 {
        write!(text, " _p(?v{place})")?;
    }
    for _ in 5..64 {
        text.push_str(")")?;
    }
    text.push_str(") Then Do(")?;
    for place in 0..32 {
        write!(text, " Assert(?v0[_s->{place}])")?;
    }
    text.push_str("))))")?;
    Ok(text)
}

// The document of 1,024 rules.
fn most_rules(alloc: Global) -> Result<String, AllocError> {
    let mut text = String::from_str(alloc, "Document(Group(")?;
    for _ in 0..1_024 {
        text.push_str("Do(Assert(_p()))")?;
    }
    text.push_str("))")?;
    Ok(text)
}

#[test]
fn each_limit_of_a_document_may_be_reached(rt: HostRuntime) -> Result<(), Fail> {
    let alloc = rt.alloc();
    is_read(&rt, alloc, greatest_rule(alloc)?.as_str(), "")?;
    is_read(&rt, alloc, most_rules(alloc)?.as_str(), "")
}

/// The items of a script that are read, a line each.
static READ: &[&str] = &[
    "a fire 1000000\n",
    "a fire 999999\nb until 1\n",
    "a234567890123456 halt\n",
];

/// A script, and the refusal of its job.
static REFUSED: &[(&str, &str)] = &[
    ("a until 1000001", "18 line 3"),
    ("a fire 999999\nb until 1\na fire 1", "18 line 5"),
    ("a fire 9223372036854775807", "18 line 3"),
    ("a2345678901234567 halt", "17 line 3"),
];

#[test]
fn budgets_and_names_at_their_limits(rt: HostRuntime) -> Result<(), Fail> {
    let alloc = rt.alloc();
    for script in READ {
        let job = format!(in alloc; "Document()\n%%\n{script}")?;
        assert!(rt; read_job(alloc, job.as_bytes()).is_ok(), "{script}");
    }
    for (script, wanted) in REFUSED {
        let job = format!(in alloc; "Document()\n%%\n{script}")?;
        is_refused(&rt, alloc, job.as_str(), wanted)?;
    }
    Ok(())
}

// A job of 16 clients that send an item each, of so many further items, and of a last line.
fn job_of(alloc: Global, more: u32, last: &str) -> Result<String, AllocError> {
    let mut text = String::from_str(alloc, "Document()\n%%\n")?;
    for client in 0..16 {
        write!(text, "c{client} halt\n")?;
    }
    for _ in 0..more {
        text.push_str("c0 halt\n")?;
    }
    text.push_str(last)?;
    Ok(text)
}

#[test]
fn the_most_clients_and_items_are_read(rt: HostRuntime) -> Result<(), Fail> {
    let alloc = rt.alloc();
    let job = read_job(alloc, job_of(alloc, 65_520, "# q halt")?.as_bytes())?;
    assert_eq!(rt; (job.names.len(), job.items.len()), (16, 65_536));
    Ok(())
}

/// How many further items, a last line, and the refusal.
static ONE_MORE: &[(u32, &str, &str)] = &[
    (0, "q fire 1000001", "refused 18 line 19\n"),
    (0, "q jump", "refused 17 line 19\n"),
    (65_520, "c0 fire 1000001", "refused 18 line 65539\n"),
    (65_520, "q halt", "refused 19 line 65539\n"),
];

#[test]
fn one_client_or_item_more_is_refused(rt: HostRuntime) -> Result<(), Fail> {
    let alloc = rt.alloc();
    for (more, last, wanted) in ONE_MORE {
        let job = job_of(alloc, *more, last)?;
        let found = outcome(alloc, job.as_bytes())?;
        assert_eq!(rt; found.as_slice(), wanted.as_bytes(), "{more} {last}");
    }
    Ok(())
}

// Asserts what so many bytes of one kind lead to.
fn fills(rt: &impl Abort, alloc: Global, byte: u8, count: usize, wanted: &str) -> Result<(), Fail> {
    let bytes = vec![in alloc; byte; count]?;
    let found = outcome(alloc, bytes.as_slice())?;
    assert_eq!(rt; found.as_slice(), wanted.as_bytes(), "{count} times {byte}");
    Ok(())
}

#[test]
fn the_longest_input_is_read(rt: HostRuntime) -> Result<(), Fail> {
    let alloc = rt.alloc();
    let ends_early = "refused 4 line 1 col 4194305\n";
    fills(&rt, alloc, b' ', 4_194_304, ends_early)?;
    fills(&rt, alloc, b' ', 4_194_305, "refused 1\n")?;
    fills(&rt, alloc, 0xff, 4_194_305, "refused 1\n")
}
