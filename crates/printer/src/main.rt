// The graph printer: reads a table's image on standard input, and prints its graph and its conflicts, or the number of the refusal. What it
// prints for which image is `print::print`, defined in crates/print/specs/Print.antt; this program only reads and writes around it.
//
// An image has at most 65,536 bytes; one more is read, to tell that it is longer. A read or a write that fails is told on standard error, and the
// program then ends with status 1; after a failed read nothing is printed.
#![tactic(auto)]

ghost use Rattle.std.specs.Prelude.{◌≡◌, true, length, IfSome};
ghost use Rattle.std.specs.Io.KnownBytes.{Appends};
ghost use Rattle.print.specs.Print.{most_printed, printed};
ghost use Rattle.printer.specs.Streams.{input_image};

use std::io;
use std::io::Write;
use std::process::ExitCode;

mod input;
mod moved;
mod output;

// Room for what is printed for any image. (An array, here and in `run`: the repository has no heap.)
fn room() -> [u8; print::ROOM]
    ensures { most_printed ≡ length result }
{
    [0; print::ROOM]
}

// Prints all that is to be printed for an image, and answers whether all of it was written. (A yes or no, here and in what it calls: what failed is told
// where it fails, by its stream's name.)
fn show<W: Write>(rt: &impl Eprint, out: &mut W, image: &[u8]) -> bool
    ensures { result ≡ true → Appends (W.contents out.old) (W.contents out.new) (printed image.now) }
{
    let mut text = room();
    match print::print(image, &mut text) {
        Ok(n) => output::write_all(rt, out, &text[..n]),
        Err(_) => {
            // never, as is proved: the room suffices
            check::expect(false);
            false
        }
    }
}

// Prints all that is to be printed for the image that an input is, and answers whether all was read and written.
fn run<R: io::Read, W: Write>(rt: &impl Eprint, input: &mut R, out: &mut W) -> bool
    ensures { result ≡ true → IfSome (R.remaining input.old)
        (λ xs. Appends (W.contents out.old) (W.contents out.new) (printed (input_image xs))) }
{
    let mut space = [0u8; 65537];
    match input::read_all(rt, input, &mut space) {
        Some(n) => show(rt, out, &space[..n]),
        None => false,
    }
}

fn main(rt: HostRuntime) -> ExitCode {
    let mut input = rt.stdin();
    let mut out = rt.stdout();
    if run(&rt, &mut input, &mut out) {
        ExitCode::SUCCESS
    } else {
        ExitCode::FAILURE
    }
}
