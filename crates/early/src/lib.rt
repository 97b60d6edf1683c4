// Rule 5: early marks.
#![tactic(auto)]

ghost use Rattle.std.specs.Prelude.{◌≡◌, true, ◌<◌, ◌≤◌, get_or, IfSome};
ghost use Rattle.graph_rules.specs.Graph.{graph_fits, graph_from, rewritten, to, early_of};
ghost use Rattle.graph_rules.specs.Build.{accept_by, with_early};
ghost use Rattle.graph_rules.specs.Layout.{step_count, no_leaf};

use words::END;
use words::graph::{Graph, set_marks};

// The leaf of the state that edge c of state s leads to; none if there is no edge, or no leaf.
fn accept_by(graph: Graph<'_>, s: usize, c: usize) -> Option<usize>
    requires s_bound { s < get_or graph.words.now 0 0 }
    requires c_lt_step_count { c < step_count }
    ensures value { result ≡ accept_by (graph_from graph.entry.words.now) (to (graph_from graph.entry.words.now) s c) }
    ensures leaf { IfSome result (λ l. l < no_leaf) }
{
    graph.accept(graph.target(s, c)?)
}

// The leaf that all children of state s have, the end child too if there is one; none if there is none such.
fn agreed_leaf(graph: Graph<'_>, s: usize) -> Option<usize>
    requires { s < get_or graph.words.now 0 0 }
    ensures value { result ≡ early_of (with_early (graph_from graph.entry.words.now)) s }
    ensures leaf { IfSome result (λ l. l < no_leaf) }
{
    let leaf = accept_by(graph, s, 0);
    if !(1..END).all(|b| accept_by(graph, s, b) == leaf) {
        return None;
    }
    let Some(end) = graph.target(s, END) else {
        return leaf;
    };
    if graph.accept(end) != leaf {
        return None;
    }
    leaf
}

// Marks every state with the leaf that all its children have, if there is one.
pub fn early(graph: &mut [u16])
    requires { graph_fits graph.old ≡ true }
    ensures graph_after { graph.new ≡ rewritten with_early graph.old }
    ensures graph_after_2 { graph_fits graph.new ≡ true }
{
    let n = Graph { words: graph }.states();
    for s in 0..n {
        let now = Graph { words: graph };
        let leaf = agreed_leaf(now, s);
        let own = now.accept(s);
        set_marks(graph, s, own, leaf);
    }
}
