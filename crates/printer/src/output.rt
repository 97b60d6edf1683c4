// Standard output, written whole.
ghost use Rattle.std.specs.Prelude.{◌≡◌, true};
ghost use Rattle.std.specs.Io.KnownBytes.{Appends};

use crate::moved;
use std::io;

// Writes all of a text, in as many writes as it takes, or tells on standard error why a write failed; answers whether all of it was written. As in
// `read_all`, the writes are counted.
pub(crate) fn write_all<W: io::Write>(rt: &impl Eprint, out: &mut W, text: &[u8]) -> bool
    ensures { result ≡ true → Appends (W.contents out.old) (W.contents out.new) text.now }
{
    let mut done: usize = 0;
    for _ in 0..u64::MAX {
        if done == text.len() {
            return true;
        }
        let put = io::Write::write(out, &text[done..]);
        match moved::judged(put, &text[done..]) {
            Ok(Some(n)) => {
                done += n;
            }
            Ok(None) => {
                let _ = eprintln!(rt; "printer: standard output: it takes no more");
                return false;
            }
            Err(e) => {
                moved::tell(rt, "printer: standard output", e);
                return false;
            }
        }
    }
    false
}
