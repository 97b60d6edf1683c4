// A table: its build, and whether it is clean.
use graph::new::Counts;
use vectors::cases::{half, number, shaped, words};
use vectors::words::{front, same};

// Room for a table or a graph.
pub(crate) const WORDS: usize = 65536;

// (`replay_builds` has it too, and the call: what both share, `vectors`, stands below the graph.)
fn counts(case: &[u8]) -> Counts {
    Counts {
        states: number(case, 2),
        root: number(case, 3),
        errors: number(case, 4),
        words: number(case, 5),
    }
}

// The build into buffers that are filled with a word of the case, and are then to be as two others are.
fn built_alike(case: &[u8], table: &[u16], graph_after: &[u16], errors_after: &[u16]) -> bool {
    let fill = half(case, 1);
    let mut graph: [u16; WORDS] = vectors::room(fill);
    let mut errors: [u16; WORDS] = vectors::room(fill);
    let Some(graph) = graph.get_mut(..graph_after.len()) else {
        return false;
    };
    let Some(errors) = errors.get_mut(..errors_after.len()) else {
        return false;
    };
    graph::new::new(table, graph, errors) == Ok(counts(case))
        && same(graph, graph_after)
        && same(errors, errors_after)
}

// Whether `clean` says of a table what the list says of it: clean by 1, else 0.
fn verdict_alike(table: &[u16], clean: usize) -> bool {
    match clean::clean(table) {
        Ok(None) => clean == 1,
        Ok(Some(_)) => clean == 0,
        Err(_) => false,
    }
}

fn told_alike(case: &[u8], table: &[u16], graph: &[u16], errors: &[u16]) -> bool {
    shaped(case, 6, 3)
        && verdict_alike(table, number(case, 0))
        && built_alike(case, table, graph, errors)
}

pub(crate) fn alike(case: &[u8]) -> bool {
    let mut table: [u16; WORDS] = vectors::room(0);
    let mut graph: [u16; WORDS] = vectors::room(0);
    let mut errors: [u16; WORDS] = vectors::room(0);
    let Some(n) = words(case, 0, &mut table) else {
        return false;
    };
    let Some(g) = words(case, 1, &mut graph) else {
        return false;
    };
    let Some(e) = words(case, 2, &mut errors) else {
        return false;
    };
    told_alike(case, front(&table, n), front(&graph, g), front(&errors, e))
}
