// All that the graph printer prints (docs/FORMATS.md, "Text of a graph"). A table's image comes in, and the printed bytes go into a lent buffer,
// whole or not at all: the graph's text and a line end, then a line for each conflict; or one line that says the refusal.
//
// The build runs once, in buffers of this crate. What is printed is then gone through twice, as in crate `display`: over no bytes, which measures it,
// and into the buffer.
//
// The printed bytes are defined in specs/Print.antt, the inner functions' parts of them in specs/Parts.antt and specs/Shown.antt.
#![tactic(auto)]

ghost use Rattle.std.specs.Prelude.{◌≡◌, ◌≤◌, length};
ghost use Rattle.print.specs.Print.{words_each, most_printed, printed, print_call};
ghost use Rattle.print.specs.Parts.{Holds, answer_text};
ghost use Rattle.print.specs.Shown.{printed_text};

mod parts;

use display::text::Text;
use graph::new::Counts;
use parts::{Conflicts, Printed};
use refusals::Refusal;
use words::graph::Graph;

// What is printed for an image is never longer.
pub const ROOM: usize = 1019188;
// The words of each of the build's two buffers. (Arrays: the repository has no heap.)
const WORDS: usize = 32768;

// What is printed of a build's answer and of the words it has left in the two buffers.
fn printed<'a>(answer: Result<Counts, Refusal>, graph: &'a [u16], errors: &'a [u16]) -> Printed<'a>
    requires holds { Holds answer graph.now errors.now }
    requires graph_len_bound { length graph.now ≤ words_each }
    requires errors_len_bound { length errors.now ≤ words_each }
    ensures text { printed_text result ≡ answer_text answer graph.now errors.now }
    ensures room { length (printed_text result) ≤ most_printed }
{
    match answer {
        Ok(counts) => Printed::Built {
            graph: Graph { words: graph },
            conflicts: Conflicts {
                words: errors,
                count: counts.errors,
            },
        },
        Err(refusal) => Printed::Refused(refusal),
    }
}

// What the graph printer prints for an image, from the front of the buffer. Refused: 29 if it does not fit.
pub fn print(image: &[u8], out: &mut [u8]) -> Result<usize, Refusal>
    ensures answer { result ≡ (print_call image.now out.old).answer }
    ensures buffer { out.new ≡ (print_call image.now out.old).buffer }
    ensures room { length (printed image.now) ≤ most_printed }
{
    let mut graph = [0u16; WORDS];
    let mut errors = [0u16; WORDS];
    let answer = graph::image::from_image(image, &mut graph, &mut errors);
    printed(answer, &graph, &errors).put(out)
}
