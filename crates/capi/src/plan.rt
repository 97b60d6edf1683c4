// Planning a graph on the mask store that the caller holds.
ghost use Rattle.std.specs.Prelude.{◌≡◌, [], ◌∷◌};
ghost use Rattle.planning.specs.Plan.{plan_report};
ghost use Rattle.capi.specs.Plans.{plan_in};

use crate::masks::{keep, store_in};
use crate::told::{Report, told};

// `plan_by_loan`: the plan of graph words in the front of a lent buffer, and the store with the masks that it needs.
#[unsafe(no_mangle)]
pub extern "C" fn balthwyr_plan(
    graph: &[u16],
    plan: &mut [u16],
    tables: &mut [u8],
    count: &mut usize,
    added: &mut usize,
) -> u8
    ensures count_value { plan_report (plan_in graph.now plan.old tables.old count.old).planning.answer ≡ record { refusal = result; values = added.new ∷ [] } }
    ensures plan_after { plan.new ≡ (plan_in graph.now plan.old tables.old count.old).buffer }
    ensures tables_after { tables.new ≡ (plan_in graph.now plan.old tables.old count.old).planning.store.tables }
    ensures count_after { count.new ≡ (plan_in graph.now plan.old tables.old count.old).planning.store.count }
{
    let planning = plans::plan::plan_by_loan(graph, plan, store_in(tables, *count));
    keep(planning.store, tables, count);
    let told: Report<1> = told(planning.answer);
    [*added] = told.values;
    told.refusal
}
