// The text of a graph (`Graph` in the Rust).
ghost use Rattle.graph_rules.specs.Graph.{graph_from};
ghost use Rattle.display.specs.Display.{displayed};

use crate::state;
use crate::text::Text;
use words::graph::Graph;

impl Text for Graph<'_> {
    ghost text = { λ graph. displayed (graph_from graph.words.now) };

    // The states, ascending, with a line end between two.
    fn write(&self, out: &mut [u8], at: usize) -> usize {
        let graph = *self;
        let n = graph.states();
        if n == 0 {
            return at;
        }
        let mut next = state::state(out, at, graph, 0);
        for s in 1..n {
            next = texts::byte(out, next, b'\n');
            next = state::state(out, next, graph, s);
        }
        next
    }
}
