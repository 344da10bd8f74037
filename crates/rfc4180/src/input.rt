// A file from a reader.
ghost use Rattle.std.specs.Prelude.{◌≡◌, ◌≢◌, ◌≤◌, take, vec_len, IfOk, IfErr, IfSome};
ghost use Rattle.std.specs.IoError.{error_kind};

use crate::MOST_BYTES;
use std::alloc::Global;
use std::io;
use std::io::{ErrorKind, Read};

// One byte more than a file has.
const MOST_READ: usize = MOST_BYTES + 1;

/// Reads as much of an input as tells whether it is a file: all of it if it has at most
/// [`MOST_BYTES`] bytes, and else its first `MOST_BYTES + 1`, which [`check`](crate::check) refuses.
/// So an input without end is refused like any other long one.
///
/// The error is the reader's own, or that memory ran out; an interrupted read is made again.
///
/// The contract names the bytes of a reader that knows them beforehand, as a slice does. Of any
/// other, as standard input, it says how many come back at most, and not that they are its first,
/// in order. That no more are taken from a reader is what [`Read::take`] does; no clause says it.
pub fn read_input<R: Read + Drop>(alloc: Global, input: R) -> io::Result<Vec<u8>>
    ensures few { IfOk result (λ v. vec_len v ≤ 65537) }
    ensures bytes { IfOk result (λ v. IfSome (R.remaining input) (λ xs. v.items ≡ take 65537 xs)) }
    ensures retried { IfErr result (λ e. error_kind e ≢ ErrorKind.Interrupted) }
{
    let mut bytes = Vec::new(alloc);
    input.take(MOST_READ as u64).read_to_end(&mut bytes)?;
    // Cuts off nothing: the library promises no count where a reader doesn't know its bytes.
    bytes.truncate(MOST_READ);
    Ok(bytes)
}
