// What one call of a reader or a writer has done.
ghost use Rattle.std.specs.Prelude.{length};
ghost use Rattle.printer.specs.Moved.{StepWithin};
ghost use Rattle.printer.specs.Streams.{Says};

use std::io;
use std::io::ErrorKind;

// What a call has done, by its answer and the bytes that it was handed: so many were moved, 0 if a signal came before the first; `None`: the input
// has ended, or the output takes nothing; or why the call has failed.
pub fn judged(got: io::Result<usize>, buf: &[u8]) -> io::Result<Option<usize>>
    ensures within { StepWithin (length buf.now) result }
    ensures says { Says (length buf.now) got result }
{
    match got {
        Ok(0) => Ok(None),
        Ok(n) => Ok(Some(n.min(buf.len()))),
        Err(e) => {
            if e.kind() == ErrorKind::Interrupted {
                return Ok(Some(0));
            }
            Err(e)
        }
    }
}

// Tells on standard error what failed, and why.
pub(crate) fn tell(rt: &impl Eprint, what: &str, e: io::Error) {
    let _ = eprintln!(rt; "{what}: {e}");
}
