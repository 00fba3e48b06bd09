//! What a run reads and writes, call by call. Runs with their texts are in examples/.
ghost use Rattle.std.specs.Prelude.{◌≡◌, ◌-◌, ◌<◌, ◌^◌, IfOk, length};
ghost use Rattle.std.specs.Io.{ReadsAtMost, WritesAtMost};
ghost use Rattle.std.specs.Io.KnownBytes.{ReadConsumes, WriteAppends};
ghost use Rattle.rif_script.specs.Faults.{CountsFaults};

use rif_script::{Failed, MemSink, MemSource, Sink, Source};
use rif_top::{Status, rif_run};
use rif_values::{OutOfMemory, Text};
use std::alloc::Global;
use std::process::Abort;
use std::test::Fail;

/// An end that notes of each call how long the buffer is that it is to fill, or the piece that it is given.
#[derive(Drop)]
struct Noted<E> {
    end: E,
    lengths: Vec<usize>,
}

impl<S: Source> Source for Noted<S> {
    ghost left = { λ noted. S.left noted.end };

    ghost faults = { λ noted. S.faults noted.end };

    fn take(&mut self, buf: &mut [u8]) -> Result<usize, Failed>
        requires { S.faults self.old.end < 2 ^ 64 - 1 }
        ensures bound { ReadsAtMost result buf.new }
        ensures bytes { ReadConsumes (S.left self.old.end) (S.left self.new.end) result buf.new }
        ensures cause { CountsFaults (S.faults self.old.end) (S.faults self.new.end) result }
    {
        let _ = self.lengths.push(buf.len());
        self.end.take(buf)
    }
}

impl<K: Sink> Sink for Noted<K> {
    ghost written = { λ noted. K.written noted.end };

    ghost faults = { λ noted. K.faults noted.end };

    fn give(&mut self, piece: &[u8]) -> Result<usize, Failed>
        requires { K.faults self.old.end < 2 ^ 64 - 1 }
        ensures bound { WritesAtMost result piece.now }
        ensures bytes { WriteAppends (K.written self.old.end) (K.written self.new.end) result piece.now }
        ensures progress { 0 < length piece.now → IfOk result (λ count. 0 < count) }
        ensures cause { CountsFaults (K.faults self.old.end) (K.faults self.new.end) result }
    {
        let _ = self.lengths.push(piece.len());
        self.end.give(piece)
    }
}

fn with_notes<E>(alloc: Global, end: E) -> Noted<E>
    ensures { result.end ≡ end }
{
    Noted {
        end,
        lengths: Vec::new(alloc),
    }
}

fn the_word_run(alloc: Global) -> Result<Vec<Text>, OutOfMemory> {
    let word = Text::from_str(alloc, "run")?;
    Ok(vec![in alloc; word]?)
}

/// A job of 62 bytes, whose run has 96.
static JOB: &str = "Document(Group(Do(Assert(_p(1)))))\n%%\na assert _q(2)\na fire 5\n";

/// The call of a source of 16 bytes a call that fails and the one of a sink of 32, or 0; the status; how often the
/// source is called, and with how much the sink is each time.
static RUNS: &[(u64, u64, Status, usize, &[usize])] = &[
    (0, 0, Status::Done, 5, &[96, 64, 32]),
    (3, 0, Status::ReadFault, 3, &[]),
    (0, 2, Status::WriteFault, 5, &[96, 64]),
];

#[test]
fn an_end_that_is_done_with_is_not_called_again(rt: HostRuntime) -> Result<(), Fail> {
    for (read, write, status, reads, pieces) in RUNS {
        calls(&rt, rt.alloc(), (*read, *write), *status, *reads, pieces)?;
    }
    Ok(())
}

fn calls(
    rt: &impl Abort,
    alloc: Global,
    failing: (u64, u64),
    status: Status,
    reads: usize,
    pieces: &[usize],
) -> Result<(), Fail> {
    let job = JOB.as_bytes().to_vec(alloc)?;
    let words = the_word_run(alloc)?;
    let mut source = with_notes(alloc, MemSource::new(job, 16, vec![in alloc; failing.0]?));
    let mut sink = with_notes(
        alloc,
        MemSink::new(alloc, 512, 32, vec![in alloc; failing.1]?)?,
    );
    assert_eq!(rt; rif_run(alloc, &words, &mut source, &mut sink), status);
    assert_eq!(rt; source.lengths.len(), reads, "{failing:?}");
    assert_eq!(rt; sink.lengths.as_slice(), pieces, "{failing:?}");
    Ok(())
}

fn spaces(alloc: Global, count: usize) -> Result<Vec<u8>, OutOfMemory> {
    Ok(vec![in alloc; b' '; count]?)
}

#[test]
fn a_long_input_is_cut(rt: HostRuntime) -> Result<(), Fail> {
    let alloc = rt.alloc();
    let words = the_word_run(alloc)?;
    let mut source = MemSource::new(spaces(alloc, 4_194_310)?, 1_000_000, Vec::new(alloc));
    let mut sink = MemSink::new(alloc, 64, 64, Vec::new(alloc))?;
    let status = rif_run(alloc, &words, &mut source, &mut sink);
    assert_eq!(rt; status, Status::Refused);
    let mut buf = [0u8; 8];
    assert_eq!(rt; source.take(&mut buf), Ok(5));
    Ok(())
}
