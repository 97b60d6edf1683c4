// Replays the stored plans and planned runs (docs/ORACLE.md, "plans.bin"): every graph is planned on its store, and every text is run and listed by
// the plan. Answers, refusals, the lent buffers and the whole store are compared with what the original answers.
#![tactic(auto)]

mod listings;
mod plan;
mod run;

use plans::plan::{plan_by_loan, plan_by_value};
use refusals::Refusal;
use vectors::cases::kind;
use vectors::replay::Turn;
use vectors::report::Kinds;

fn main() {
    let kinds = Kinds {
        names: b"planned:\nrefused 12:\nrefused 14:\nrefused 15:\nruns:\nruns refused:\n",
        leading: 4,
    };
    vectors::replay::run(kinds, |turn| alike(turn));
}

// A run belongs to the planning before it. Planning goes by value on the first buffer and by a loan on the second, or the other way round, in turn.
fn alike(turn: Turn<'_>) -> bool {
    let answer = match kind(turn.case) {
        0 => Ok(plan::gained(turn.case)),
        1 => Err(Refusal::GraphForm),
        2 => Err(Refusal::PlanOrOffset),
        3 => Err(Refusal::Store),
        4 | 5 => {
            return kind(turn.host) == 0 && run::alike(turn);
        }
        _ => return false,
    };
    if turn.number % 2 == 1 {
        plan::alike(
            turn.case,
            answer,
            turn.number,
            |graph: &[u16], out: &mut [u16], store| plan_by_loan(graph, out, store),
            |graph: &[u16], out: &mut [u16], store| plan_by_value(graph, out, store),
        )
    } else {
        plan::alike(
            turn.case,
            answer,
            turn.number,
            |graph: &[u16], out: &mut [u16], store| plan_by_value(graph, out, store),
            |graph: &[u16], out: &mut [u16], store| plan_by_loan(graph, out, store),
        )
    }
}
