// A whole text scanned by the plan of a graph, into the buffer that `scan_list` fills. Graph, store and plan are checked once.
ghost use Rattle.std.specs.Prelude.{◌≡◌, List, ℕ, MatchResult};
ghost use Rattle.graph_rules.specs.Graph.{graph_from};
ghost use Rattle.plan_rules.specs.Plan.{base};
ghost use Rattle.scans.specs.Scan.{past};
ghost use Rattle.scans.specs.List.{no_list};
ghost use Rattle.plans.specs.Run.{RunsAlike, planned_refusal, planned_list};

use crate::run::{check_plan, ready};
use mask_store::MaskStore;
use readings::walk::Last;
use refusals::Refusal;
use runner::edge::NO_EDGE;
use runner::planned::Planned;
use runner::prepare::{ENDS, prepare};
use scans::list::{Listed, fill};
use scans::reader::Reader;
use scans::scan::{Place, Scan};
use words::graph::Graph;

// What reads a text by a plan that runs every text as the graph walks it.
#[derive(Clone, Copy)]
struct ByPlan<'a> {
    planned: Planned<'a>,
    ghost alike: { RunsAlike (graph_from planned.graph.words.now) planned.plan.now planned.tables.now },
}

impl Reader for ByPlan<'_> {
    ghost words = { λ p. p.planned.graph.words.now };

    fn read(&self, text: &[u8]) -> Last {
        self.planned.run(text)
    }
}

// Whether a scan reads at an offset past the text.
fn reads_past(text: &[u8], place: Place) -> bool
    ensures { result ≡ past text.now place }
{
    match place {
        Place::Reading(at) => text.len() < at,
        Place::Ended => false,
    }
}

// The offset at which a scan reads on, if neither 12, 14, 15 nor 16 refuses it. An offset past the text comes before the store is looked at.
fn offset(
    scan: Scan,
    graph: &[u16],
    plan: &[u16],
    store: &MaskStore,
    text: &[u8],
) -> Result<usize, Refusal>
    ensures { MatchResult result (λ at. (planned_refusal base graph.now plan.now store.now text.now scan ≡ 0) × (scan.place ≡ Place.Reading at)) (λ refusal. (out : List ℕ) → planned_list base graph.now plan.now store.now text.now scan out ≡ no_list refusal scan out) }
{
    let legal = Graph::new(graph)?;
    if reads_past(text, scan.place) {
        return Err(Refusal::PlanOrOffset);
    }
    check_plan(legal, plan, store)?;
    match scan.place {
        Place::Reading(at) => Ok(at),
        Place::Ended => Err(Refusal::ScanEnded),
    }
}

// A text's tokens and gaps from a scan on, as many as there is room for; or 12, 14, 15 or 16, and the scan and the buffer unchanged.
pub fn scan_planned(
    scan: Scan,
    graph: &[u16],
    plan: &[u16],
    store: MaskStore,
    text: &[u8],
    out: &mut [usize],
) -> Listed
    ensures listed { result ≡ (planned_list base graph.now plan.now store text.now scan out.old).listed }
    ensures buffer { out.new ≡ (planned_list base graph.now plan.now store text.now scan out.old).buffer }
{
    match offset(scan, graph, plan, &store, text) {
        Ok(at) => {
            let legal = Graph { words: graph };
            let mut edges = [NO_EDGE; ENDS];
            prepare(legal, &mut edges);
            let planned = ready(legal, plan, &store, &edges);
            let reader = ByPlan { planned };
            fill(&reader, text, at, out)
        }
        Err(refusal) => Listed {
            answer: Err(refusal),
            scan,
        },
    }
}
