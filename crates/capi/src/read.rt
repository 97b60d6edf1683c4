// The readings of a text. (Three calls alike: for C each is a function of its own.)
ghost use Rattle.std.specs.Prelude.{◌≡◌, [], ◌∷◌};
ghost use Rattle.readings.specs.Answers.{found_values, read_report, graph_read, table_read};
ghost use Rattle.capi.specs.Plans.{run_in};

use crate::told::{Numbers, Report, told};
use graph_rules::Found;

impl Numbers<3> for Option<Found> {
    ghost numbers = { found_values };

    fn numbers(self) -> [usize; 3] {
        match self {
            Some(found) => [1, found.leaf, found.end],
            None => [0, 0, 0],
        }
    }
}

// `read_graph`.
#[unsafe(no_mangle)]
pub extern "C" fn balthwyr_read_graph(
    graph: &[u16],
    text: &[u8],
    found: &mut usize,
    leaf: &mut usize,
    end: &mut usize,
) -> u8
    ensures { read_report (graph_read graph.now text.now) ≡ record { refusal = result; values = found.new ∷ leaf.new ∷ end.new ∷ [] } }
{
    let told: Report<3> = told(readings::read::read_graph(graph, text));
    [*found, *leaf, *end] = told.values;
    told.refusal
}

// `read_table`.
#[unsafe(no_mangle)]
pub extern "C" fn balthwyr_read_table(
    table: &[u16],
    text: &[u8],
    found: &mut usize,
    leaf: &mut usize,
    end: &mut usize,
) -> u8
    ensures { read_report (table_read table.now text.now) ≡ record { refusal = result; values = found.new ∷ leaf.new ∷ end.new ∷ [] } }
{
    let told: Report<3> = told(readings::read_table::read_table(table, text));
    [*found, *leaf, *end] = told.values;
    told.refusal
}

// `run`: the reading of a text by graph words, plan words and a store.
#[unsafe(no_mangle)]
pub extern "C" fn balthwyr_run(
    graph: &[u16],
    plan: &[u16],
    tables: &[u8],
    count: usize,
    text: &[u8],
    found: &mut usize,
    leaf: &mut usize,
    end: &mut usize,
) -> u8
    ensures { read_report (run_in graph.now plan.now tables.now count text.now) ≡ record { refusal = result; values = found.new ∷ leaf.new ∷ end.new ∷ [] } }
{
    let held = crate::masks::store_in(tables, count);
    let told: Report<3> = told(plans::run::run(graph, plan, held, text));
    [*found, *leaf, *end] = told.values;
    told.refusal
}
