//! How the items of a job are cut into batches.
use rif_script::{batches_of, read_job};
use std::alloc::{AllocError, Global};
use std::process::Abort;
use std::test::Fail;

/// A script, and its cut: how many entries each batch has, and the clients and ranks of those that are left.
static CUTS: &[(&str, &str)] = &[
    ("", ""),
    ("a assert _p(1)\nb halt\na assert _p(1)\n", "2 1 "),
    (
        "a fire 1\nb dispose\nb assert _p(1)\na dispose\n",
        "1 1 1:1 0:1 ",
    ),
];

#[test]
fn a_script_is_cut(rt: HostRuntime) -> Result<(), Fail> {
    let alloc = rt.alloc();
    for (script, wanted) in CUTS {
        is_cut(&rt, alloc, script, wanted)?;
    }
    is_cut(&rt, alloc, changes(alloc)?.as_str(), "1024 1 ")
}

// 1,025 changes of two clients.
fn changes(alloc: Global) -> Result<String, AllocError> {
    let mut script = String::from_str(alloc, "a assert _p(1)\n")?;
    for _ in 0..512 {
        script.push_str("b assert _p(2)\na retract _p(1)\n")?;
    }
    Ok(script)
}

fn is_cut(rt: &impl Abort, alloc: Global, script: &str, wanted: &str) -> Result<(), Fail> {
    let text = format!(in alloc; "Document()\n%%\n{script}")?;
    let job = read_job(alloc, text.as_bytes())?;
    let (batches, left) = batches_of(alloc, &job)?;
    let mut shown = String::new(alloc);
    for batch in &batches {
        let count = batch.entries().len();
        write!(shown, "{count} ")?;
    }
    for entry in &left {
        let (client, rank) = (entry.client, entry.rank);
        write!(shown, "{client}:{rank} ")?;
    }
    assert_eq!(rt; shown.as_str(), wanted, "{script}");
    Ok(())
}
