// A text run by the plan of a graph.
ghost use Rattle.std.specs.Prelude.{◌≡◌, length};
ghost use Rattle.refusals.specs.Refusals.{answered};
ghost use Rattle.graph_rules.specs.Graph.{graph_from};
ghost use Rattle.plan_rules.specs.Plan.{base};
ghost use Rattle.runner.specs.Prepared.{edges_size, Prepared};
ghost use Rattle.plans.specs.Run.{plan_refusal, run_call};

use graph_rules::Found;
use mask_store::{MaskStore, Masks};
use plan_rows::layout::ROW;
use refusals::Refusal;
use runner::edge::{Edge, NO_EDGE};
use runner::planned::Planned;
use runner::prepare::{ENDS, prepare};
use words::graph::Graph;

// Whether the words are a plan of the graph on this store: if not, 14 or 15. The plan of graph and store names no mask that the store lacks exactly where
// the store lacks no class that the graph needs.
pub(crate) fn check_plan(graph: Graph<'_>, plan: &[u16], store: &MaskStore) -> Result<(), Refusal>
    ensures { result ≡ answered (plan_refusal base (graph_from graph.entry.words.now) plan.now store.now) tt }
{
    if plan.len() < ROW * graph.states() {
        return Err(Refusal::PlanOrOffset);
    }
    let after = plan_rows::needs::grow(graph, *store)?;
    let held = store.count;
    if after.store.count != held {
        return Err(Refusal::PlanOrOffset);
    }
    let masks = Masks {
        store: &after.store,
    };
    if plan_rows::rows::agrees(graph, plan, masks) {
        Ok(())
    } else {
        Err(Refusal::PlanOrOffset)
    }
}

// A graph with its plan on a store that `check_plan` has taken, and the edges that `prepare` has made, ready to run texts.
pub(crate) fn ready<'a>(
    graph: Graph<'a>,
    plan: &'a [u16],
    store: &'a MaskStore,
    edges: &'a [Edge],
) -> Planned<'a>
    requires plan { plan_refusal base (graph_from graph.words.now) plan.now store.now ≡ 0 }
    requires size { length edges.now ≡ edges_size }
    requires prepared { Prepared (graph_from graph.words.now) edges.now }
    ensures graph { result.graph.words.now ≡ graph.entry.words.now }
    ensures plan { result.plan.now ≡ plan.now }
    ensures tables { result.tables.now ≡ store.now.tables }
{
    Planned {
        graph,
        plan,
        tables: &store.tables,
        edges,
    }
}

// The reading of a text by graph words, plan words and a store, which come apart, as C hands them in; or 12, 14 or 15.
pub fn run(
    graph: &[u16],
    plan: &[u16],
    store: MaskStore,
    text: &[u8],
) -> Result<Option<Found>, Refusal>
    ensures { result ≡ run_call base graph.now plan.now store text.now }
{
    let legal = Graph::new(graph)?;
    check_plan(legal, plan, &store)?;
    let mut edges = [NO_EDGE; ENDS];
    prepare(legal, &mut edges);
    Ok(ready(legal, plan, &store, &edges).run(text).reading())
}
