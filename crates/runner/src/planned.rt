// A graph and a plan of it, ready to run texts.
ghost use Rattle.std.specs.Prelude.{◌≡◌, ◌≤◌, length};
ghost use Rattle.graph_rules.specs.Graph.{graph_from};
ghost use Rattle.plan_rules.specs.Plan.{base, plan_size};
ghost use Rattle.runner.specs.Prepared.{edges_size, Prepared, PlanOn};

use crate::edge::Edge;
use mask_store::SIZE;
use words::graph::Graph;

// The words are a plan of the graph; the tables hold the masks that it names; the edges are the graph's (`prepare::prepare`).
#[derive(Clone, Copy)]
pub struct Planned<'a> {
    pub graph: Graph<'a>,
    pub plan: &'a [u16],
    pub tables: &'a [u8; SIZE],
    pub edges: &'a [Edge],
    pub ghost room: { plan_size base (graph_from graph.words.now) ≤ length plan.now },
    pub ghost plan_on: { ∥ PlanOn (graph_from graph.words.now) plan.now ∥₁ },
    pub ghost size: { length edges.now ≡ edges_size },
    pub ghost prepared: { Prepared (graph_from graph.words.now) edges.now },
}
