//! The two parts of a job, and which of several refusals is told.
use crate::outcome::{is_read, is_refused, outcome};
use std::test::Fail;

/// A job whose parts aren't told apart, or whose document or line between the parts is wrong, and its refusal.
static PARTS: &[(&str, &str)] = &[
    ("%%", "4 line 1 col 1"),
    ("%%\na halt\n", "4 line 1 col 1"),
    ("Document()\na halt\n", "4 line 2 col 1"),
    ("Document()\n%%%\na halt\n", "3 line 2 col 1"),
    ("Document()\n%% \na halt\n", "3 line 2 col 1"),
    ("Document()\n %%\na halt\n", "3 line 2 col 2"),
    ("Document()\n%%\r\r\na halt\n", "3 line 2 col 1"),
    ("Document() %%\na halt\n", "3 line 1 col 12"),
    ("Document((*\n%%\n*))\n", "3 line 1 col 10"),
    ("Document(\n%%\n", "4 line 2 col 1"),
    ("Document()\n%%\n%%\n", "17 line 3"),
    ("Document(Group(Do(Assert(_p(\"ab", "3 line 1 col 29"),
    // jobs with several mistakes
    ("Document(\n%%\na jump\n", "4 line 2 col 1"),
    ("Document(Group 10001())\n%%\na \"\n", "12 line 1 col 16"),
    ("Document(Group 10001 e:s\n%%\n", "12 line 1 col 16"),
    ("Document(\n)\r\n%%\r\n\na jump\n", "17 line 5"),
    ("Document()\n%%\na jump\na fire 1000001\n", "17 line 3"),
    ("Document()\n%%\na fire 1000001\na jump\n", "18 line 3"),
    ("Document()\n%%\na fire 1000001 1\n", "17 line 3"),
    ("Document()\n%%\nA fire 1000001\n", "17 line 3"),
];

/// A document with rules that aren't safe, and the refusal of its job, whose script has a faulty line.
static UNSAFE: &[(&str, &str)] = &[
    (
        "Document(Group(If _p(?x) Then Do(Assert(_q()))))",
        "14 rule 1 var ?x",
    ),
    (
        "Document(Group(Forall ?x (If Exists ?x (_p(?x)) Then Do(Assert(_q())))))",
        "15 rule 1 var ?x",
    ),
    (
        "Document(Group(If And(Or(_a() _b()) Or(_a() _b()) Or(_a() _b()) Or(_a() _b()) Or(_a() _b()) \
         Or(_a() _b()) Or(_a() _b())) Then Do(Assert(_q()))))",
        "21 rule 1",
    ),
    (
        "Document(Group(Do(Assert(_p())) Forall ?y (If _p() Then Do(Assert(_q(?y))))))",
        "16 rule 2 var ?y",
    ),
    // rule by rule
    (
        "Document(Group(Forall ?y (If _p() Then Do(Assert(_q(?y)))) Do(Assert(_q(?z)))))",
        "16 rule 1 var ?y",
    ),
    // what refuses a token comes before
    (
        "Document(Group(If _p(?x) Then Do(Assert(_q()))\nForall ?a ?b ?c ?d ?e ?f ?g ?h ?i ?j ?k ?l ?m \
         ?n ?o ?p ?q ?r ?s ?t ?u ?v ?w ?x ?y ?z ?0 ?1 ?2 ?3 ?4 ?5 ?6",
        "13 variables line 2 col 104",
    ),
];

#[test]
fn a_rule_that_is_not_safe_is_told_before_the_script(rt: HostRuntime) -> Result<(), Fail> {
    let alloc = rt.alloc();
    for (document, wanted) in UNSAFE {
        let job = format!(in alloc; "{document}\n%%\na jump\n")?;
        is_refused(&rt, alloc, job.as_str(), wanted)?;
    }
    Ok(())
}

/// Jobs whose documents end as they may.
static READ: &[(&str, &str)] = &[
    ("Document()", ""),
    ("Document()\n", ""),
    ("Document()\n%%", ""),
    ("Document()\n%%\r", ""),
    ("Document()\r\n%%\r\na halt\r\n", "left a halt\n"),
    ("(* n *) Document(\n\n)\n%%\na halt", "left a halt\n"),
];

#[test]
fn a_job_has_two_parts_and_its_first_refusal_is_told(rt: HostRuntime) -> Result<(), Fail> {
    for (job, wanted) in PARTS {
        is_refused(&rt, rt.alloc(), job, wanted)?;
    }
    for (job, lines) in READ {
        is_read(&rt, rt.alloc(), job, lines)?;
    }
    Ok(())
}

/// Bytes that aren't UTF-8, and the lines of their refusals.
static BROKEN: &[(&[u8], &str)] = &[
    (b"D\xff", "refused 2 at 1\n"),
    (b"Document(\n%%\na jump\xe4", "refused 2 at 19\n"),
];

#[test]
fn broken_bytes_are_told_first(rt: HostRuntime) -> Result<(), Fail> {
    for (bytes, wanted) in BROKEN {
        let found = outcome(rt.alloc(), bytes)?;
        assert_eq!(rt; found.as_slice(), wanted.as_bytes(), "{wanted}");
    }
    Ok(())
}
