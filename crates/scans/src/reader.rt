// What reads a text as a graph does: the graph by its walk, or in a crate above a plan of it by its run. A scan asks no more of either.
ghost use Rattle.std.specs.Prelude.{◌≡◌, List, ℕ};
ghost use Rattle.graph_rules.specs.Graph.{graph_from};
ghost use Rattle.graph_rules.specs.Read.{read_graph};

use readings::walk::Last;
use words::graph::Graph;

pub trait Reader {
    // The graph's words.
    ghost words: { Self → List ℕ };

    // The reading of a text, as a walk hands it out.
    fn read(&self, text: &[u8]) -> Last
        ensures { result ≡ read_graph (graph_from (words self.now)) text.now };
}

impl Reader for Graph<'_> {
    ghost words = { λ g. g.words.now };

    fn read(&self, text: &[u8]) -> Last {
        readings::read::read(*self, text)
    }
}
