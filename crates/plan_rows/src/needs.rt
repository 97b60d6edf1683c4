// The classes that a graph needs masks for, added to a store.
ghost use Rattle.std.specs.Prelude.{◌≡◌, ◌<◌, get_or, IfSome};
ghost use Rattle.graph_rules.specs.Graph.{graph_from, state_of};
ghost use Rattle.plan_rules.specs.Plan.{base, state_needs, needs};
ghost use Rattle.plan_rows.specs.Needs.{stored, after, grown_by, edge_need};

use crate::fork::fork_at;
use crate::way::way_to;
use edges::class_to;
use mask_store::{Allowed, MaskStore};
use plan_rules::Way;
use refusals::Refusal;
use words::graph::Graph;

// The class of an edge of s, added to the store if it takes a mask where no table is used. (The store is lent: in a Result of its own, its 2 KB would be laid
// out anew for every edge.)
fn add_edge(
    graph: Graph<'_>,
    s: usize,
    target: Option<usize>,
    store: &mut Allowed,
) -> Result<(), Refusal>
    requires s_bound { s < get_or graph.words.now 0 0 }
    requires target_bound { IfSome target (λ u. u < get_or graph.words.now 0 0) }
    ensures { after result store.new ≡ grown_by store.old.store (edge_need (state_of (graph_from graph.entry.words.now) s) s target) }
{
    if let Some(u) = target {
        match way_to(graph, s, u) {
            Way::BySelf | Way::ByTests => {}
            Way::ByMask => {
                store.add(class_to(graph, s, u))?;
            }
        }
    }
    Ok(())
}

// The store with the classes that state s needs: of the self edge first, which always takes a mask, then of the other edges, by target.
fn with_state(graph: Graph<'_>, s: usize, store: Allowed) -> Result<Allowed, Refusal>
    requires s_bound { s < get_or graph.words.now 0 0 }
    ensures { stored result ≡ grown_by store.store (state_needs base (graph_from graph.entry.words.now) s) }
{
    let fork = fork_at(graph, s);
    let mut held = store;
    if fork.own {
        held.add(class_to(graph, s, s))?;
    }
    if fork.by_table() {
        return Ok(held);
    }
    add_edge(graph, s, fork.lowest[0], &mut held)?;
    add_edge(graph, s, fork.lowest[1], &mut held)?;
    Ok(held)
}

// The store with all classes that the graph needs, or 15.
pub fn grow(graph: Graph<'_>, store: MaskStore) -> Result<Allowed, Refusal>
    ensures { stored result ≡ grown_by store (needs base (graph_from graph.entry.words.now)) }
{
    let mut held = Allowed::new(store)?;
    for s in 0..graph.states() {
        held = with_state(graph, s, held)?;
    }
    Ok(held)
}
