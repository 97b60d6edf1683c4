// Standard input, read to its end.
ghost use Rattle.std.specs.Prelude.{length};
ghost use Rattle.printer.specs.Moved.{ReadWithin};
ghost use Rattle.printer.specs.Streams.{Took};

use crate::moved;
use std::io;

// Reads until the input ends or the buffer is full, and answers how many bytes; or tells on standard error why a read failed. A proved loop has to
// end, so the reads are counted, to a number that no run uses up.
pub fn read_all<R: io::Read>(rt: &impl Eprint, input: &mut R, buf: &mut [u8]) -> Option<usize>
    ensures within { ReadWithin (length buf.old) result }
    ensures bytes { Took (R.remaining input.old) (R.remaining input.new) result buf.new }
{
    let mut done: usize = 0;
    for _ in 0..u64::MAX {
        if done == buf.len() {
            return Some(done);
        }
        let got = io::Read::read(input, &mut buf[done..]);
        match moved::judged(got, &buf[done..]) {
            Ok(Some(n)) => {
                done += n;
            }
            Ok(None) => {
                return Some(done);
            }
            Err(e) => {
                moved::tell(rt, "printer: standard input", e);
                return None;
            }
        }
    }
    None
}
