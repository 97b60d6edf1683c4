// Texts, read by a table and by a graph, scanned and listed; and graphs that every call refuses.
use crate::scan::{Scanning, begun};
use crate::tables::WORDS;
use graph_rules::Found;
use readings::read::read_graph;
use readings::read_table::read_table;
use refusals::Refusal;
use scans::scan::{Place, Scan};
use vectors::answers::answer;
use vectors::cases::{number, part, shaped, words};
use vectors::replay::Turn;
use vectors::words::front;

// A reading as the list has it: leaf and 65,536 times the end, 65,535 for none. (`replay_plans` has it too: what both share, `vectors`, stands beside
// the graph's rules.)
fn reading(number: usize) -> Option<Found> {
    if number == 65535 {
        return None;
    }
    Some(Found {
        leaf: number % 65536,
        end: number / 65536,
    })
}

// The scan of a case's text by a graph, from an offset on.
fn scanning<'a>(graph: &'a [u16], case: &'a [u8], offset: usize) -> Scanning<'a> {
    Scanning {
        graph,
        text: part(case, 0),
        scan: begun(offset),
        entries: part(case, 1),
    }
}

// A text of a table, by the table, by its graph words, and by the whole buffer that it was built into. Of a clean table, table and graph read the same.
fn table_alike(turn: Turn<'_>, table: &[u16], graph: &[u16], whole: &[u16]) -> bool {
    let Turn {
        host,
        case,
        number: i,
    } = turn;
    let text = part(case, 0);
    shaped(case, 2, 2)
        && read_table(table, text) == Ok(reading(number(case, 0)))
        && read_graph(graph, text) == Ok(reading(number(case, 1)))
        && read_graph(whole, text) == Ok(reading(number(case, 1)))
        && (number(host, 0) == 0 || number(case, 0) == number(case, 1))
        && scanning(graph, case, 0).pieces_alike()
        && scanning(whole, case, 0).lists_alike(i)
}

pub(crate) fn of_table(turn: Turn<'_>) -> bool {
    let mut table: [u16; WORDS] = vectors::room(0);
    let mut buffer: [u16; WORDS] = vectors::room(0);
    let Some(n) = words(turn.host, 0, &mut table) else {
        return false;
    };
    let Some(g) = words(turn.host, 1, &mut buffer) else {
        return false;
    };
    // (Of the room: the words may be more than the list has, and 0 then.)
    let graph = front(&buffer, 2 + 258 * number(turn.host, 2));
    table_alike(turn, front(&table, n), graph, front(&buffer, g))
}

// The scan of a text from an offset, which may be refused by 14.
fn scanned_alike(graph: &[u16], turn: Turn<'_>) -> bool {
    let scanning = scanning(graph, turn.case, number(turn.case, 1));
    match answer(number(turn.case, 2), ()) {
        Some(Ok(())) => scanning.pieces_alike() && scanning.lists_alike(turn.number),
        Some(Err(Refusal::PlanOrOffset)) => {
            scanning.entries.len() == 0 && scanning.refused(Refusal::PlanOrOffset)
        }
        _ => false,
    }
}

// A text of a graph.
pub(crate) fn of_graph(turn: Turn<'_>) -> bool {
    let case = turn.case;
    let mut room: [u16; WORDS] = vectors::room(0);
    let Some(n) = words(turn.host, 0, &mut room) else {
        return false;
    };
    let graph = front(&room, n);
    shaped(case, 3, 2)
        && read_graph(graph, part(case, 0)) == Ok(reading(number(case, 0)))
        && scanned_alike(graph, turn)
}

// By 12 every call on a graph is refused, whatever the scan, for 12 goes before 14 and 16.
fn unfit(graph: &[u16], text: &[u8]) -> bool {
    let over = Scan {
        place: Place::Ended,
    };
    read_graph(graph, text) == Err(Refusal::GraphForm)
        && [begun(0), begun(text.len() + 1), over].iter().all(|&scan| {
            let scanning = Scanning {
                graph,
                text,
                scan,
                entries: &[],
            };
            scanning.refused(Refusal::GraphForm)
        })
}

// The refusal of a graph, 0 or 12. Its words are a text, too.
pub(crate) fn graph_alike(case: &[u8]) -> bool {
    let mut room: [u16; WORDS] = vectors::room(0);
    let Some(n) = words(case, 0, &mut room) else {
        return false;
    };
    let graph = front(&room, n);
    let text = part(case, 0);
    shaped(case, 1, 1)
        && match answer(number(case, 0), ()) {
            // (A list has no end above a half.)
            Some(Ok(())) => read_graph(graph, text).is_ok_and(|found| found.is_none_or(|f| f.end
                <= 65535)),
            Some(Err(Refusal::GraphForm)) => unfit(graph, text),
            _ => false,
        }
}
