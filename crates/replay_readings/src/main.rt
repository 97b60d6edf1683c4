// Replays the stored readings and scans (docs/ORACLE.md, "readings.bin"): every table is built, and judged clean or not; every text is read by the
// table and by the graph, scanned piece by piece, and listed into buffers; then the same of graphs that no table gives. Every value is compared with
// the stored one.
#![tactic(auto)]

mod listings;
mod scan;
mod tables;
mod text_cases;

use vectors::cases::kind;
use vectors::replay::Turn;
use vectors::report::Kinds;

fn main() {
    let kinds = Kinds {
        names: b"tables\ngraphs\ntexts of tables\ntexts of graphs\n",
        leading: 2,
    };
    vectors::replay::run(kinds, |turn| alike(turn));
}

// A text belongs to a table or a graph before it.
fn alike(turn: Turn<'_>) -> bool {
    match kind(turn.case) {
        0 => tables::alike(turn.case),
        1 => text_cases::graph_alike(turn.case),
        2 => kind(turn.host) == 0 && text_cases::of_table(turn),
        3 => kind(turn.host) == 1 && text_cases::of_graph(turn),
        _ => false,
    }
}
