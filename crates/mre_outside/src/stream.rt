//! Reading to the end and writing all bytes. Each `Err` of a reader or a writer is counted as a
//! failure. An interrupted call, as when the program is stopped at its terminal, is counted and
//! repeated.
ghost use Rattle.std.specs.Prelude.{◌≡◌, ◌+◌, ◌≤◌, ◌<◌, ◌++◌, [], length, vec_capacity, IfSome};
ghost use Rattle.std.specs.Prelude.{IfOk, OnOk, IsErrOf, IsErr};
ghost use Rattle.std.specs.Io.KnownBytes.{Appends};
ghost use Rattle.mre_outside.specs.Failures.{one_more, Rose};
ghost use Rattle.mre_outside.specs.Sinks.{AppendsPrefix};
ghost use Rattle.mre_outside.specs.Streams.{TakesAtMost};

use crate::{PutStop, ShelfStop, SinkStop};
use std::io::{ErrorKind, Read, Write};

/// The most bytes that a reader is asked for at once.
const CHUNK: usize = 65536;

/// A writer failed, or took nothing.
#[derive(Clone, Copy)]
pub struct WriteFailed;

impl From<WriteFailed> for SinkStop {
    ghost use Rattle.std.specs.Prelude.{◌≡◌};
    ghost use Rattle.mre_outside.specs.declared.sink.SinkStop.TheVariants as stop;

    ghost from_gives = { λ _ given. given ≡ stop.Failed };

    fn from(_failure: WriteFailed) -> SinkStop {
        SinkStop::Failed
    }
}

impl From<WriteFailed> for PutStop {
    ghost use Rattle.std.specs.Prelude.{◌≡◌};
    ghost use Rattle.mre_outside.specs.declared.shelf.PutStop.TheVariants as stop;

    ghost from_gives = { λ _ given. given ≡ stop.Failed };

    fn from(_failure: WriteFailed) -> PutStop {
        PutStop::Failed
    }
}

/// Counts one more failure. The count stops at the largest `u64`.
pub(crate) fn raise(failures: &mut u64)
    ensures rose { failures.new ≡ one_more failures.old }
    ensures never_falls { failures.old ≤ failures.new }
{
    *failures = failures.saturating_add(1);
}

/// Writes all the bytes. A writer that takes nothing has failed. After a failure a prefix of the
/// bytes may be written.
pub fn write_to<W: Write>(
    writer: &mut W,
    bytes: &[u8],
    failures: &mut u64,
) -> Result<(), WriteFailed>
    ensures ok { OnOk result (Appends (W.contents writer.old) (W.contents writer.new) bytes.now) }
    ensures failed { IsErr result → Rose failures.old failures.new }
    ensures part { IsErr result
        → AppendsPrefix (W.contents writer.old) (W.contents writer.new) bytes.now }
    ensures never_falls { failures.old ≤ failures.new }
{
    let mut rest = bytes;
    for _ in 0..u64::MAX {
        if rest.is_empty() {
            return Ok(());
        }
        match writer.write(rest) {
            Ok(0) => break,
            Ok(count) => rest = &rest[count..],
            Err(error) => {
                raise(failures);
                if error.kind() != ErrorKind::Interrupted {
                    return Err(WriteFailed);
                }
            }
        }
    }
    // It took nothing, or was interrupted each time.
    raise(failures);
    Err(WriteFailed)
}

/// Reads to the end, if that comes after at most `limit` bytes. It asks for at most one byte more
/// than `limit`, and reads into `room`, so it allocates nothing.
pub fn read_from<R: Read>(
    reader: &mut R,
    room: Vec<u8>,
    limit: u32,
    failures: &mut u64,
) -> Result<Vec<u8>, ShelfStop>
    requires empty { room.items ≡ [] }
    requires room { limit + 1 ≤ vec_capacity room }
    ensures ok { IfSome (R.remaining reader.old) (λ left.
        IfOk result (λ bytes. bytes.items ≡ left)) }
    ensures within { IfOk result (λ bytes. length bytes.items ≤ limit) }
    ensures failed { IsErrOf result ShelfStop.Failed → Rose failures.old failures.new }
    ensures too_long { IsErrOf result ShelfStop.TooLong
        → IfSome (R.remaining reader.old) (λ left. limit < length left) }
    ensures no_memory { ¬ IsErrOf result ShelfStop.NoMemory }
    ensures asks { TakesAtMost (R.remaining reader.old) (R.remaining reader.new) (limit + 1) }
    ensures never_falls { failures.old ≤ failures.new }
{
    let mut bytes = room;
    let mut chunk = [0u8; CHUNK];
    let most = limit as usize;
    for _ in 0..u64::MAX {
        let wanted = CHUNK.min(most + 1 - bytes.len());
        match reader.read(&mut chunk[..wanted]) {
            Ok(0) => return Ok(bytes),
            Ok(count) => {
                bytes.extend_from_slice(&chunk[..count]).unwrap();
                if bytes.len() > most {
                    return Err(ShelfStop::TooLong);
                }
            }
            Err(error) => {
                raise(failures);
                if error.kind() != ErrorKind::Interrupted {
                    return Err(ShelfStop::Failed);
                }
            }
        }
    }
    // It was interrupted each time.
    raise(failures);
    Err(ShelfStop::Failed)
}
