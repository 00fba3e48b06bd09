//! A job whose calls are made again where they are refused.
ghost use Rattle.std.specs.Prelude.{◌≡◌, ◌≢◌, [], IsTrue, None, OnOk, Some};
ghost use Rattle.std.specs.Option.{is_some};
ghost use Rattle.session_states.specs.declared.state.State.TheVariants.{Disposed};
ghost use Rattle.session_states.specs.declared.turn.Act.TheVariants.{Fired};
ghost use Rattle.rif_engine.specs.SoFar.{last_act_of, MayTake, session_now};

use rif_engine::Engine;
use rif_script::{batches_of, read_job, write_run};
use rif_values::OutOfMemory;
use session_states::{Act, Batch, State};
use std::alloc::Global;
use std::process::Abort;
use std::test::Fail;

/// An instance loses its fact and gets it back in two firings of other rules, and fires again, though it changes
/// nothing.
static JOB: &str = "Document(Group(Group 10(If _go(1) Then Do(Retract(_p(1)) Retract(_go(1)) \
    Assert(_go(2))) If _go(2) Then Do(Assert(_p(1)) Retract(_go(2)))) \
    Forall ?x (If _p(?x) Then Do(Assert(_seen(?x))))))\n%%\n\
    a assert _p(1)\na fire 1\na assert _go(1)\na fire 5\n";

/// Its run, worked by hand.
static TURNS: &str = "turn 1\nin a assert _p(1)\nin a fire 1\nfired 3 ?x=1\n+ _seen(1)\n\
    turn 2\nquiet\n\
    turn 3\nin a assert _go(1)\nin a fire 5\nfired 1\n- _go(1)\n- _p(1)\n+ _go(2)\n\
    turn 4\nfired 2\n- _go(2)\n+ _p(1)\n\
    turn 5\nfired 3 ?x=1\n\
    turn 6\nquiet\n\
    end turns 6 firings 4 facts 2\n";

#[test]
fn a_refused_call_is_made_again(rt: HostRuntime) -> Result<(), Fail> {
    let alloc = rt.alloc();
    let job = read_job(alloc, JOB.as_bytes())?;
    let (batches, left) = batches_of(alloc, &job)?;
    let mut engine = Engine::start(alloc, job.doc.copy(alloc)?)?;
    for batch in batches {
        make_turns(&rt, alloc, &mut engine, batch)?;
    }
    let facts = engine.facts().len();
    let mut shown = Vec::new(alloc);
    write_run(
        alloc,
        &mut shown,
        &job,
        engine.turns(),
        left.as_slice(),
        facts,
    )?;
    assert_eq!(rt; str::from_utf8(shown.as_slice())?, TURNS);
    Ok(())
}

// Makes the turn of a batch, and those of empty batches while the last one fired, four at most.
fn make_turns(
    rt: &impl Abort,
    alloc: Global,
    engine: &mut Engine,
    batch: Batch,
) -> Result<(), Fail> {
    make_turn(rt, alloc, engine, batch)?;
    for _ in 0..4 {
        if engine.last_act() == Some(Act::Fired) {
            make_turn(rt, alloc, engine, Batch::new(alloc))?;
        }
    }
    Ok(())
}

fn make_turn(
    rt: &impl Abort,
    alloc: Global,
    engine: &mut Engine,
    batch: Batch,
) -> Result<(), Fail> {
    assert!(rt; may_take(engine, &batch));
    take_batch(alloc, engine, batch)?;
    act(alloc, engine)?;
    Ok(())
}

// Whether the batch may enter.
fn may_take(engine: &Engine, batch: &Batch) -> bool
    ensures { IsTrue result → MayTake engine.now batch.now }
{
    is_settled(engine) & is_live(engine) & follows(engine, batch)
}

fn is_settled(engine: &Engine) -> bool
    ensures { IsTrue result → engine.now.owed ≡ None }
{
    !engine.owes()
}

fn is_live(engine: &Engine) -> bool
    ensures { IsTrue result → (session_now engine.now).state ≢ Disposed }
{
    match engine.state() {
        State::Disposed => false,
        State::Idle | State::Firing(_) | State::UntilHalt(_) => true,
    }
}

// Whether the batch has entries, or follows a firing.
fn follows(engine: &Engine, batch: &Batch) -> bool
    ensures { IsTrue result → batch.now ≡ [] → last_act_of engine.now ≡ Some Fired }
{
    match engine.last_act() {
        Some(Act::Fired) => true,
        _ => !batch.entries().is_empty(),
    }
}

// Takes a batch, at the second try where the first is refused.
fn take_batch(alloc: Global, engine: &mut Engine, batch: Batch) -> Result<(), OutOfMemory>
    requires { MayTake engine.old batch }
    ensures { OnOk result (engine.new ≡ record engine.old { owed = Some batch }) }
{
    match engine.take_batch(alloc, batch) {
        Ok(()) => Ok(()),
        Err((batch, _)) => match engine.take_batch(alloc, batch) {
            Ok(()) => Ok(()),
            Err((_, none)) => Err(none),
        },
    }
}

// Settles the act, at the second try where the first is refused.
fn act(alloc: Global, engine: &mut Engine) -> Result<Act, OutOfMemory>
    requires { IsTrue (is_some engine.old.owed) }
{
    match engine.act(alloc) {
        Ok(act) => Ok(act),
        Err(_) => engine.act(alloc),
    }
}
