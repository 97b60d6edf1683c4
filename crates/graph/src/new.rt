// The build (docs/RULES.md, "The build"): from a table's words to the graph's words and the conflicts. All that can refuse is decided before a word
// is written.
ghost use Rattle.std.specs.Prelude.{◌≡◌, true, false, [], ◌∷◌, ◌++◌, map, ◌-◌, ◌*◌, ◌≤◌, length, get_or, replicate, Some};
ghost use Rattle.graph_rules.specs.Table.{table_of};
ghost use Rattle.graph_rules.specs.Graph.{graph_fits, written_on};
ghost use Rattle.graph_rules.specs.Build.{no_universal_start, empty_match, empty_leaves, no_states, reached, unpruned, pruned, merged, build_from};
ghost use Rattle.graph.specs.New.{wrote_or_9, new_of};
ghost use Rattle.graph_rules.specs.Layout.{most_states, graph_size};

use legal::Table;
use refusals::Refusal;
use words::STATES;
use words::graph::{Graph, place};

// How many states the graph has, its root, how many errors there are, and how many words they take.
#[derive(Clone, Copy, PartialEq, Eq)]
pub struct Counts {
    pub states: usize,
    pub root: usize,
    pub errors: usize,
    pub words: usize,
}

// Table and buffers come apart, as C lends them. Each function below asks for room in the graph's buffer for the table's states: a fact of two values, a
// table and a buffer that is then written, which a struct of both would owe at each write.

// No states: the count and the root are 0, and so is every word up to those of the table's states.
fn no_states(table: Table<'_>, graph: &mut [u16])
    requires { graph_size (get_or table.words.now 0 0) ≤ length graph.old }
    ensures { graph.new ≡ written_on (get_or table.entry.words.now 0 0) (record { states = []; root = 0 }) graph.old }
{
    words::zero(graph, 0, place(table.states(), 0));
}

// Rule 1, where there is no universal start.
fn without_start(table: Table<'_>, graph: &mut [u16], errors: &mut [u16]) -> Result<Counts, Refusal>
    requires { graph_size (get_or table.words.now 0 0) ≤ length graph.old }
    ensures { record { answer = result; graph = graph.new; errors = errors.new } ≡ wrote_or_9 (get_or table.entry.words.now 0 0) (no_states (no_universal_start ∷ [])) graph.old errors.old }
{
    if errors.len() < 2 {
        return Err(Refusal::ErrorRoom);
    }
    conflicts::write_no_start(errors);
    no_states(table, graph);
    Ok(Counts {
        states: 0,
        root: 0,
        errors: 1,
        words: 2,
    })
}

// Rule 1, where `count` leaves can match empty text.
fn with_empty(
    table: Table<'_>,
    count: usize,
    graph: &mut [u16],
    errors: &mut [u16],
) -> Result<Counts, Refusal>
    requires count_value { count ≡ length (empty_leaves (table_of table.words.now)) }
    requires room { graph_size (get_or table.words.now 0 0) ≤ length graph.old }
    ensures { record { answer = result; graph = graph.new; errors = errors.new } ≡ wrote_or_9 (get_or table.entry.words.now 0 0) (no_states (map empty_match (empty_leaves (table_of table.entry.words.now)))) graph.old errors.old }
{
    let words = 3 * count;
    if errors.len() < words {
        return Err(Refusal::ErrorRoom);
    }
    conflicts::write_empty(table, errors);
    no_states(table, graph);
    Ok(Counts {
        states: 0,
        root: 0,
        errors: count,
        words,
    })
}

// Rules 2 to 8: the graph of the states that are reached, written. Each rule lends the words as they are: a struct round a `&mut` would owe that they
// are well-formed at each single write.
fn write_graph(table: Table<'_>, start: usize, set: &[bool; STATES], graph: &mut [u16])
    requires start_value { (table_of table.words.now).start ≡ Some start }
    requires set_value { set.now ≡ reached (table_of table.words.now) start ++ replicate (most_states - get_or table.words.now 0 0) false }
    requires room { graph_size (get_or table.words.now 0 0) ≤ length graph.old }
    ensures graph_after { graph.new ≡ written_on (get_or table.entry.words.now 0 0) (merged (pruned (unpruned (table_of table.entry.words.now) start))).graph graph.old }
    ensures graph_after_2 { graph_fits graph.new ≡ true }
{
    // Rules 2 to 4: the reached states, renumbered, each with its leaf.
    rows::write(table, start, set, graph);
    // Rule 5: early marks.
    early::early(graph);
    // Rule 6: accepts that every parent has as early are cleared.
    clear::clear(graph);
    // Rule 7: states from which nothing is matched are dropped.
    prune::prune(graph);
    // Rule 8: equal states become one.
    merge::merge(graph);
}

// Rules 2 to 8, from a start, where no leaf can match empty text.
fn with_states(
    table: Table<'_>,
    start: usize,
    graph: &mut [u16],
    errors: &mut [u16],
) -> Result<Counts, Refusal>
    requires start_value { (table_of table.words.now).start ≡ Some start }
    requires room { graph_size (get_or table.words.now 0 0) ≤ length graph.old }
    ensures { record { answer = result; graph = graph.new; errors = errors.new } ≡ wrote_or_9 (get_or table.entry.words.now 0 0) (build_from (table_of table.entry.words.now) (Some start) []) graph.old errors.old }
{
    let set = reach::reached(table, start);
    let ties = conflicts::tie_words(table, &set);
    if errors.len() < ties.words {
        return Err(Refusal::ErrorRoom);
    }
    conflicts::write_ties(table, &set, errors);
    write_graph(table, start, &set, graph);
    let built = Graph { words: graph };
    Ok(Counts {
        states: built.states(),
        root: built.root(),
        errors: ties.errors,
        words: ties.words,
    })
}

// The build of a table: its graph and its errors, written into the lent words; or 1 to 9, and both buffers as they were.
pub fn new(table: &[u16], graph: &mut [u16], errors: &mut [u16]) -> Result<Counts, Refusal>
    ensures { record { answer = result; graph = graph.new; errors = errors.new } ≡ new_of table.now graph.old errors.old }
{
    let table = Table::new(table)?;
    if graph.len() < place(table.states(), 0) {
        return Err(Refusal::GraphRoom);
    }
    let Some(start) = table.start() else {
        return without_start(table, graph, errors);
    };
    let count = conflicts::count_empty(table);
    if count != 0 {
        return with_empty(table, count, graph, errors);
    }
    with_states(table, start, graph, errors)
}
