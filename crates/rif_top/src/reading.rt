ghost use Rattle.std.specs.Prelude.{◌≡◌, ◌-◌, ◌<◌, ◌^◌, IfOk, IsErrOf, IsOkUnless, OnOk, vec_len};
ghost use Rattle.rif_top.specs.Reading.{ReadsFront};

use rif_refusals::limits::MOST_INPUT_BYTES;
use rif_script::{Failed, Source};
use std::alloc::{AllocError, Global};

/// The most bytes that a run reads: one more than an input may have, by which one that is too long
/// shows.
pub const MOST_BYTES_READ: usize = MOST_INPUT_BYTES + 1;

/// The most bytes of one read.
const CHUNK_BYTES: usize = 65_536;

/// Why an input was not read.
#[derive(Clone, Copy, Debug)]
pub enum ReadError {
    /// A read failed.
    Failed,
    /// No memory was found.
    OutOfMemory,
}

impl From<Failed> for ReadError {
    ghost use Rattle.std.specs.Prelude.{◌≡◌};
    ghost use Rattle.rif_top.specs.declared.reading.ReadError.TheVariants as variant;

    ghost from_gives = { λ _ error. error ≡ variant.Failed };

    fn from(_: Failed) -> ReadError {
        ReadError::Failed
    }
}

impl From<AllocError> for ReadError {
    ghost use Rattle.std.specs.Prelude.{◌≡◌};
    ghost use Rattle.rif_top.specs.declared.reading.ReadError.TheVariants as variant;

    ghost from_gives = { λ _ error. error ≡ variant.OutOfMemory };

    fn from(_: AllocError) -> ReadError {
        ReadError::OutOfMemory
    }
}

/// Reads to the source's end, or its first `most` bytes. The memory grows with the input.
pub fn read_up_to<S: Source>(
    alloc: Global,
    source: &mut S,
    most: usize,
) -> Result<Vec<u8>, ReadError>
    requires { S.faults source.old < 2 ^ 64 - 1 }
    ensures read { IfOk result (λ input.
        ReadsFront most (S.left source.old) (S.left source.new) input.items) }
    ensures stands { OnOk result (S.faults source.new ≡ S.faults source.old) }
    ensures failed { IsErrOf result ReadError.Failed → S.faults source.old < S.faults source.new }
    ensures no_memory { IsErrOf result ReadError.OutOfMemory → S.faults source.new ≡ S.faults source.old }
{
    let mut zeros = zeros(alloc, CHUNK_BYTES)?;
    let chunk = zeros.as_mut_slice();
    let mut input = Vec::new(alloc);
    while input.len() < most {
        let room = chunk.len().min(most - input.len());
        let count = source.take(&mut chunk[..room])?;
        if count == 0 {
            break;
        }
        input.extend_from_slice(&chunk[..count])?;
    }
    Ok(input)
}

fn zeros(alloc: Global, count: usize) -> Result<Vec<u8>, ReadError>
    ensures len { IfOk result (λ zeros. vec_len zeros ≡ count) }
    ensures cause { IsOkUnless result ReadError.OutOfMemory }
{
    Ok(vec![in alloc; 0u8; count]?)
}
