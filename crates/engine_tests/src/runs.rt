//! Whole runs, worked by hand.
use rif_engine::replay;
use rif_script::laws::cut_is_lawful;
use rif_script::{batches_of, read_job, write_run};
use session_states::Turn;
use std::alloc::Global;
use std::process::Abort;
use std::test::Fail;

/// A job, and its run.
static RUNS: &[(&str, &str)] = &[
    // an instance that left and came back fires again
    (
        "Document(Group(Forall ?x (If And(?x # _C Not(_p(?x))) Then Do(Assert(_p(?x))))))\n%%\n\
         a assert _x # _C\na fire 5\na retract _p(_x)\na fire 1\n",
        "turn 1\nin a assert _x # _C\nin a fire 5\nfired 1 ?x=_x\n+ _p(_x)\n\
         turn 2\nquiet\n\
         turn 3\nin a retract _p(_x)\nin a fire 1\nfired 1 ?x=_x\n+ _p(_x)\n\
         turn 4\nquiet\n\
         end turns 4 firings 2 facts 2\n",
    ),
    // two branches that hold make one instance
    (
        "Document(Group(Forall ?x (If Or(?x # _C ?x # _D) Then Do(Assert(_p(?x))))))\n%%\n\
         a assert _x # _C\na assert _x # _D\na fire 5\n",
        "turn 1\nin a assert _x # _C\nin a assert _x # _D\nin a fire 5\nfired 1 ?x=_x\n+ _p(_x)\n\
         turn 2\nquiet\n\
         end turns 2 firings 1 facts 3\n",
    ),
    // a session rests, is out of budget, goes on, is halted and ends; what stands behind its end is left
    (
        "Document(Group(Forall ?x (If ?x # _C Then Do(Assert(_p(?x))))))\n%%\n\
         a assert _x # _C\na until 1\nb assert _y # _C\na until 0\nb fire 1\na halt\n\
         a assert _z # _C\na dispose\nb assert _q(1)\na halt\n",
        "turn 1\nin a assert _x # _C\nin a until 1\nfired 1 ?x=_x\n+ _p(_x)\n\
         turn 2\nrest\n\
         turn 3\nin b assert _y # _C\nin a until 0\nlimit\n\
         turn 4\nin b fire 1\nfired 1 ?x=_y\n+ _p(_y)\n\
         turn 5\nquiet\n\
         turn 6\nin a halt\nhalted\n\
         turn 7\nin a assert _z # _C\nin a dispose\ndisposed\n\
         left b assert _q(1)\nleft a halt\n\
         end turns 7 firings 2 facts 5\n",
    ),
    // a block is void where its slot has no value
    (
        "Document(Group(Forall ?x (If ?x # _C Then Do((?y ?x[_s->?y]) Assert(?x[_t->?y])))))\n%%\n\
         a assert _x # _C\na assert _y # _C\na assert _y[_s->_a]\na fire 5\n",
        "turn 1\nin a assert _x # _C\nin a assert _y # _C\nin a assert _y[_s->_a]\nin a fire 5\n\
         fired 1 ?x=_x\nvoid\n\
         turn 2\nfired 1 ?x=_y\n+ _y[_t->_a]\n\
         turn 3\nquiet\n\
         end turns 3 firings 2 facts 4\n",
    ),
    // a slot gets the least of its values, and may so stay as it was
    (
        "Document(Group(Forall ?x (If ?x # _C Then Do((?y ?x[_s->?y]) Modify(?x[_s->?y])))))\n%%\n\
         a assert _x # _C\na assert _x[_s->_b]\na assert _x[_s->_a]\na assert _y # _C\n\
         a assert _y[_s->_a]\na fire 5\n",
        "turn 1\nin a assert _x # _C\nin a assert _x[_s->_b]\nin a assert _x[_s->_a]\nin a assert _y # _C\n\
         in a assert _y[_s->_a]\nin a fire 5\nfired 1 ?x=_x\n- _x[_s->_b]\n\
         turn 2\nfired 1 ?x=_y\n\
         turn 3\nquiet\n\
         end turns 3 firings 2 facts 4\n",
    ),
    // each object that is made is a new one
    (
        "Document(Group(Forall ?x (If ?x # _C Then Do((?n New()) Assert(?n[_of->?x]) \
         Assert(?n # _D) Retract(?x # _C)))))\n%%\n\
         a assert _x # _C\na assert _y # _C\na fire 5\n",
        "turn 1\nin a assert _x # _C\nin a assert _y # _C\nin a fire 5\n\
         fired 1 ?x=_x\n- _x # _C\n+ @0[_of->_x]\n+ @0 # _D\n\
         turn 2\nfired 1 ?x=_y\n- _y # _C\n+ @1[_of->_y]\n+ @1 # _D\n\
         turn 3\nquiet\n\
         end turns 3 firings 2 facts 4\n",
    ),
    // items of every form, and the variables of two levels, the outer ones first
    (
        "Document(Group(Forall ?k (Forall ?c (If ?c[_s->?k] Then Do(Assert(_p(?c)))))))\n%%\n\
         b retract _o # _C\na retract _o _s\nb retract _o\na modify _o[_s->true]\nb fire 1\n",
        "turn 1\nin b retract _o # _C\nin a retract _o _s\nin b retract _o\nin a modify _o[_s->true]\n\
         in b fire 1\nfired 1 ?k=true ?c=_o\n+ _p(_o)\n\
         turn 2\nquiet\n\
         end turns 2 firings 1 facts 2\n",
    ),
];

#[test]
fn a_run_has_its_text(rt: HostRuntime) -> Result<(), Fail> {
    for (job, text) in RUNS {
        runs(&rt, rt.alloc(), job, text)?;
    }
    Ok(())
}

// Asserts that the run of a job has this text. That its batches may be replayed is a law.
fn runs(rt: &impl Abort, alloc: Global, job: &str, text: &str) -> Result<(), Fail> {
    cut_is_lawful();
    let job = read_job(alloc, job.as_bytes())?;
    let (batches, left) = batches_of(alloc, &job)?;
    let engine = replay(alloc, job.doc.copy(alloc)?, batches)?;
    let facts = engine.facts().len();
    let mut shown = Vec::new(alloc);
    write_run(
        alloc,
        &mut shown,
        &job,
        engine.turns(),
        left.as_slice(),
        facts,
    )?;
    assert_eq!(rt; str::from_utf8(shown.as_slice())?, text);
    are_copied(rt, engine.turns())
}

// A copy of each turn, and of each of its parts, is equal to it.
fn are_copied(rt: &impl Abort, turns: &[Turn]) -> Result<(), Fail> {
    for turn in turns {
        assert_eq!(rt; turn.copy()?, *turn);
        assert_eq!(rt; turn.batch.copy()?, turn.batch);
        assert_eq!(rt; turn.effect.copy()?, turn.effect);
        for entry in turn.batch.entries() {
            assert_eq!(rt; entry.copy()?, *entry);
            assert_eq!(rt; entry.item.copy()?, entry.item);
        }
    }
    Ok(())
}
