// Rule 8: equal states become the lowest of them, in rounds until one merges nothing. A round compares each state with the earlier ones that stay, so a
// graph of n states, d of them distinct, takes at most n d comparisons of two rows a round.
#![tactic(auto)]

ghost use Rattle.std.specs.Prelude.{◌≡◌, true, false, not, cond, ℕ, ◌<◌, get_or};
ghost use Rattle.graph_rules.specs.Graph.{graph_fits, graph_from, rewritten, state_of};
ghost use Rattle.graph_rules.specs.Build.{merge_round, merges_none, merged};
ghost use Rattle.merge.specs.Equals.{Lowest};

use crate::equal::equal;
use relabel::relabel;
use words::STATES;
use words::graph::Graph;

mod equal;

// The lowest state that equals state s. `stay` tells which states before s equal none before them. (A loop, and no `find`: that a state which does not
// stay differs from s too is known from those before it, so it goes along from turn to turn.)
fn first_equal(graph: Graph<'_>, stay: &[bool; STATES], s: usize) -> usize
    requires s_bound { s < get_or graph.words.now 0 0 }
    requires by_index { (e : ℕ) → e < s → get_or stay.now e false ≡ false → (f : ℕ) × (f < e) × (state_of (graph_from graph.words.now) f ≡ state_of (graph_from graph.words.now) e) }
    ensures { Lowest (graph_from graph.entry.words.now) s result }
{
    for e in 0..s {
        if stay[e] && equal(graph, e, s) {
            return e;
        }
    }
    s
}

// One round, on the rows as it finds them, and whether it merged states. If it did not, the words stay as they are.
fn merge_round(graph: &mut [u16]) -> bool
    requires { graph_fits graph.old ≡ true }
    ensures value { result ≡ not (merges_none (graph_from graph.old)) }
    ensures graph_after { graph.new ≡ cond (merges_none (graph_from graph.old)) graph.old (rewritten merge_round graph.old) }
    ensures graph_after_2 { graph_fits graph.new ≡ true }
{
    let now = Graph { words: graph };
    let n = now.states();
    // Two arrays, no heap: a state that is merged has a name and does not stay, so neither tells the other.
    let mut names: [Option<u16>; STATES] = [None; STATES];
    let mut stay = [false; STATES];
    let mut k: usize = 0;
    for s in 0..n {
        let e = first_equal(now, &stay, s);
        if e == s {
            stay[s] = true;
            names[s] = Some(k as u16);
            k += 1;
        } else {
            names[s] = names[e];
        }
    }
    if k == n {
        return false;
    }
    relabel(graph, &names, &stay);
    true
}

// Merges equal states in rounds, until a round merges nothing.
pub fn merge(graph: &mut [u16])
    requires { graph_fits graph.old ≡ true }
    ensures graph_after { graph.new ≡ rewritten (λ g. (merged g).graph) graph.old }
    ensures graph_after_2 { graph_fits graph.new ≡ true }
{
    // How many rounds there are is known only from the last, which merges nothing: so no range counts them. `while merge_round(graph) {}` would be no
    // plainer, with its work in the test and an empty body.
    loop {
        if !merge_round(graph) {
            break;
        }
    }
}
