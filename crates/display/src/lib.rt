// The text of a graph, as Rust's Display gives it, and the lines of its conflicts (docs/FORMATS.md, "Text of a graph"). Words of a graph or of a
// conflict come in, and bytes of text go into a lent buffer, whole or not at all.
//
// Each inner function writes its part from a place on, as those of crate `texts` do, so the same function over no bytes measures the text; a call
// measures first (`Text`). A state costs a pass over its row for each target that it has.
//
// The texts are defined in specs/Display.antt on those of crate `texts`, what the calls answer in specs/Answers.antt. How long a text is at most is in
// proofs/Sizes.antt and proofs/Conflicts.antt; that a buffer of that size is never refused, in proofs/Rooms.antt.
#![tactic(auto)]

ghost use Rattle.std.specs.Prelude.{◌≡◌};
ghost use Rattle.display.specs.Answers.{display_call, line_call};

mod byte_class;
pub mod errors;
mod graph;
mod state;
pub mod text;

use errors::Conflict;
use refusals::Refusal;
use text::Text;

// The text of a graph, from the front of the buffer; how many bytes it has. Refused: 12; 29 if the text does not fit.
pub fn display(graph: &[u16], out: &mut [u8]) -> Result<usize, Refusal>
    ensures answer { result ≡ (display_call graph.now out.old).answer }
    ensures buffer { out.new ≡ (display_call graph.now out.old).buffer }
{
    words::graph::Graph::new(graph)?.put(out)
}

// The line of the conflict that the words begin with, from the front of the buffer; how many bytes it has. Refused: 9 if the words end before
// it does; 29 if the line does not fit.
pub fn error_line(errors: &[u16], out: &mut [u8]) -> Result<usize, Refusal>
    ensures answer { result ≡ (line_call errors.now out.old).answer }
    ensures buffer { out.new ≡ (line_call errors.now out.old).buffer }
{
    Conflict::new(errors)?.put(out)
}
