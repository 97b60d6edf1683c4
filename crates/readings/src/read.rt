// The reading of a text by a graph: an early leaf where a state is entered, an accepted one a byte late.
ghost use Rattle.std.specs.Prelude.{◌≡◌, suc, ◌<◌, get_or, IfSome};
ghost use Rattle.std.specs.Option.{option_or};
ghost use Rattle.graph_rules.specs.Graph.{graph_from};
ghost use Rattle.graph_rules.specs.Layout.{no_leaf};
ghost use Rattle.graph_rules.specs.Read.{Reading, read_graph, graph_walker, late};
ghost use Rattle.readings.specs.Answers.{graph_read};

use crate::walk::{Last, Walker, walk};
use graph_rules::Found;
use refusals::Refusal;
use words::graph::Graph;

// What a state of that leaf records, entered by k byte steps: the match is one byte late.
pub(crate) fn late(leaf: Option<usize>, k: usize) -> Option<Found>
    requires { IfSome leaf (λ l. l < no_leaf) }
    ensures value { (r : Reading) → late leaf k r ≡ option_or result r }
    ensures leaf { IfSome result (λ f. f.leaf < no_leaf) }
{
    match leaf {
        Some(leaf) if k != 0 => Some(Found { leaf, end: k - 1 }),
        _ => None,
    }
}

// The same after the end step, which comes after k byte steps.
pub(crate) fn at_end(leaf: Option<usize>, k: usize) -> Option<Found>
    requires { IfSome leaf (λ l. l < no_leaf) }
    ensures value { (r : Reading) → late leaf (suc k) r ≡ option_or result r }
    ensures leaf { IfSome result (λ f. f.leaf < no_leaf) }
{
    leaf.map(|leaf| Found { leaf, end: k })
}

impl Walker for Graph<'_> {
    ghost walker = { λ g. graph_walker (graph_from g.words.now) };

    ghost states = { λ g. get_or g.words.now 0 0 };

    fn next(&self, s: usize, c: usize) -> Option<usize> {
        self.target(s, c)
    }

    fn entered(&self, s: usize, k: usize) -> Option<Found> {
        match self.early(s) {
            Some(leaf) => Some(Found { leaf, end: k }),
            None => late(self.accept(s), k),
        }
    }

    fn left(&self, s: usize, k: usize) -> Option<Found> {
        at_end(self.accept(s), k)
    }
}

// The reading of a text by well-formed graph words: the last record of its walk.
pub fn read(graph: Graph<'_>, text: &[u8]) -> Last
    ensures { result ≡ read_graph (graph_from graph.entry.words.now) text.now }
{
    if graph.states() == 0 {
        return Last::none();
    }
    walk(&graph, graph.root(), text)
}

// The reading of a text by graph words, or 12.
pub fn read_graph(graph: &[u16], text: &[u8]) -> Result<Option<Found>, Refusal>
    ensures { result ≡ graph_read graph.now text.now }
{
    let graph = Graph::new(graph)?;
    Ok(read(graph, text).reading())
}
