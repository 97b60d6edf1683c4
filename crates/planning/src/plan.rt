// Planning a graph on a mask store: by value, on a store that is lent and grows in the call, and by a loan made for the call. Each is the one before
// with another hold on the store, and says so in a line or two (docs/DECISIONS.md, 36). Graph words, buffer and store come apart, as C hands them in.
ghost use Rattle.std.specs.Prelude.{◌≡◌, ◌-◌, ◌≤◌, IfOk, MatchResult};
ghost use Rattle.plan_rules.specs.Plan.{base};
ghost use Rattle.planning.specs.Plan.{no_plan, planned, plan_call};

use mask_store::{MaskStore, Masks};
use plan_rows::layout::ROW;
use refusals::Refusal;
use words::graph::Graph;

// How many classes the store gained, or a refusal; and the store after it.
#[derive(Clone, Copy)]
pub struct Planning {
    pub answer: Result<usize, Refusal>,
    pub store: MaskStore,
}

// The plan of the graph, three words a state, in the front of the buffer, and the store with the masks that it needs; or 12, 14 or 15, and the buffer
// unchanged.
fn grown_by_plan(graph: &[u16], out: &mut [u16], store: MaskStore) -> Result<MaskStore, Refusal>
    ensures made { MatchResult result (λ after. plan_call base graph.now out.old store ≡ planned store after out.new) (λ refusal. plan_call base graph.now out.old store ≡ no_plan refusal out.new store) }
    ensures more { IfOk result (λ after. store.count ≤ after.count) }
{
    let legal = Graph::new(graph)?;
    if out.len() < ROW * legal.states() {
        return Err(Refusal::PlanOrOffset);
    }
    let after = plan_rows::needs::grow(legal, store)?;
    let masks = Masks {
        store: &after.store,
    };
    plan_rows::rows::write(legal, out, masks);
    Ok(after.store)
}

// The plan of the graph, three words a state, in the front of the buffer, and the store with the masks that it needs; or 12, 14 or 15, and buffer
// and store unchanged.
pub fn plan_by_value(graph: &[u16], out: &mut [u16], store: MaskStore) -> Planning
    ensures { (result ≡ (plan_call base graph.now out.old store).planning) × (out.new ≡ (plan_call base graph.now out.old store).buffer) }
{
    match grown_by_plan(graph, out, store) {
        Ok(after) => Planning {
            answer: Ok(after.count - store.count),
            store: after,
        },
        Err(refusal) => Planning {
            answer: Err(refusal),
            store,
        },
    }
}

// The same on a store that is lent, and grows in the call.
pub fn plan(graph: &[u16], out: &mut [u16], store: &mut MaskStore) -> Result<usize, Refusal>
    ensures { (result ≡ (plan_call base graph.now out.old store.old).planning.answer) × ((store.new ≡ (plan_call base graph.now out.old store.old).planning.store) × (out.new ≡ (plan_call base graph.now out.old store.old).buffer)) }
{
    let planning = plan_by_value(graph, out, *store);
    *store = planning.store;
    planning.answer
}

// The same on a store of one's own, which is lent for the call: what a program calls.
pub fn plan_by_loan(graph: &[u16], out: &mut [u16], store: MaskStore) -> Planning
    ensures { (result ≡ (plan_call base graph.now out.old store).planning) × (out.new ≡ (plan_call base graph.now out.old store).buffer) }
{
    let mut lent = store;
    let answer = plan(graph, out, &mut lent);
    Planning {
        answer,
        store: lent,
    }
}
