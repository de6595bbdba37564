//! Reading a source to its end.
ghost use Rattle.std.specs.Prelude.{◌≡◌, ℕ, List, ◌^◌, ◌<◌, ◌↔◌, length, IsErrOf};
ghost use Rattle.std.specs.Io.KnownBytes.{Consumes};
ghost use Rattle.pc_edges.specs.Pulls.{IsReadWithin};
ghost use Rattle.pc_edges.specs.inside.Loading.{HasLoaded, LoadsWithin};

use crate::Source;
use std::alloc::Global;
use thiserror::Error;

/// The reason why a source was not read to its end.
#[derive(Clone, Copy, Debug, PartialEq, Eq, Error)]
pub enum LoadError {
    #[error("the input could not be read")]
    ReadFault,
    #[error("the input is too long")]
    TooLong,
    #[error("out of memory")]
    OutOfMemory,
}

/// The size in bytes of a buffer between a stream and the program: the most that one pull or one push moves.
pub const STREAM_ROOM: usize = 65_536;

/// Reads `source` to its end and returns all its bytes, at most `limit`.
///
/// Each byte is copied once from a buffer of `STREAM_ROOM` bytes. Each pull but the last gives at least one byte, so
/// there are at most `limit + 1` pulls.
///
/// # Errors
///
/// - `ReadFault` if a pull failed.
/// - `TooLong` if the source has more than `limit` bytes. It stops at the pull that passes the limit.
/// - `OutOfMemory` if there is no memory for the buffer or the bytes.
pub fn load<S: Source>(alloc: Global, source: &mut S, limit: usize) -> Result<Vec<u8>, LoadError>
    requires { limit < 2 ^ 32 }
    ensures loaded { HasLoaded result limit S.left S.faults source.old source.new }
    ensures too_long { (bytes : List ℕ) × Consumes (S.left source.old) (S.left source.new) bytes
        × (IsErrOf result LoadError.TooLong ↔ (limit < length bytes)) }

    // nothing is pulled after the pull that passes the limit, ends the input or fails
    ensures stops { IsReadWithin limit STREAM_ROOM S.left S.faults S.pulls source.old source.new }
{
    let Ok(mut buffer) = vec![in alloc; 0u8; STREAM_ROOM] else {
        return Err(LoadError::OutOfMemory);
    };
    load_by(alloc, source, limit, buffer.as_mut_slice())
}

/// Does what `load` does, with pulls into `buffer`.
fn load_by<S: Source>(
    alloc: Global,
    source: &mut S,
    limit: usize,
    buffer: &mut [u8],
) -> Result<Vec<u8>, LoadError>
    requires { length buffer.old ≡ STREAM_ROOM }
    ensures loaded { HasLoaded result limit S.left S.faults source.old source.new }
    ensures loads { LoadsWithin (IsErrOf result LoadError.TooLong) limit STREAM_ROOM S.left S.faults S.pulls
        source.old source.new }
{
    let mut bytes = Vec::new(alloc);
    loop {
        let Ok(n) = source.pull(buffer) else {
            return Err(LoadError::ReadFault);
        };
        if n == 0 {
            return Ok(bytes);
        }
        if limit - bytes.len() < n {
            return Err(LoadError::TooLong);
        }
        let Ok(()) = bytes.extend_from_slice(&buffer[..n]) else {
            return Err(LoadError::OutOfMemory);
        };
    }
}
