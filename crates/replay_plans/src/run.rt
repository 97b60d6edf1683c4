// Runs by a plan, against the stored outcomes, and beside the walk of the graph.
use crate::plan::{GRAPH, PLAN, pattern};
use graph_rules::Found;
use mask_store::MaskStore;
use refusals::Refusal;
use vectors::answers::answer;
use vectors::cases::{half, number, part};
use vectors::replay::Turn;
use vectors::words::front;

// A text, and what it is run by.
#[derive(Clone, Copy)]
pub(crate) struct Planned<'a> {
    pub graph: &'a [u16],
    pub plan: &'a [u16],
    pub store: MaskStore,
    pub text: &'a [u8],
}

impl Planned<'_> {
    fn run(&self) -> Result<Option<Found>, Refusal> {
        plans::run::run(self.graph, self.plan, self.store, self.text)
    }

    // A run that is refused so, and so is every list.
    pub(crate) fn refused(&self, refusal: Refusal) -> bool {
        self.run() == Err(refusal) && self.lists_refused(refusal)
    }
}

// A reading as the list has it: its leaf, and its end in the upper half; 65,535 for none. (`replay_readings` has it too: what both share, `vectors`,
// stands beside the graph's rules.)
fn reading(word: usize) -> Option<Found> {
    if word == 65535 {
        return None;
    }
    Some(Found {
        leaf: word % 65536,
        end: word / 65536,
    })
}

// A store with a class more, if it has room and lacks it: the masks that it holds keep their numbers.
fn with_more(store: MaskStore, bytes: &[u8]) -> MaskStore {
    let added = mask_store::add_by_value(store, vectors::flags(bytes, 0));
    added.store
}

// The plan of a case in the front of a buffer, with the word that a run changes: how many words the plan has, if it has room.
fn give(host: &[u8], case: &[u8], plan: &mut [u16]) -> Option<usize> {
    let n = vectors::cases::words(host, 3, plan);
    let i = number(case, 2);
    if i < plan.len() {
        plan[i] = half(case, 3);
    }
    n
}

// Run i by the words that it is given; and by more words, if it is given all of the plan, and a store with a class more, if it has the one that planning
// left. The outcome is the same. Where it is not refused, the walk of the graph reads the same, and lists the same as the plan.
fn by_plan(given: &Planned<'_>, more: &Planned<'_>, case: &[u8], i: usize) -> bool {
    let Some(outcome) = answer(number(case, 4), reading(number(case, 5))) else {
        return false;
    };
    given.run() == outcome
        && more.run() == outcome
        && match outcome {
            Ok(_) => graph::read::read_graph(given.graph, given.text) == outcome
                && given.lists_alike(i),
            Err(refusal) => number(case, 5) == 65535 && given.lists_refused(refusal),
        }
}

// A run by the plan of the case to which it belongs. A list tells the run too where that case's graph or plan is no runs or has no room: by a graph of no
// words; by the plan's buffer as it is then, of which a word more than it has is no words.
pub(crate) fn alike(turn: Turn<'_>) -> bool {
    let Turn {
        host,
        case,
        number: i,
    } = turn;
    let mut room: [u16; GRAPH] = vectors::room(0);
    let n = vectors::cases::words(host, 0, &mut room).unwrap_or(0);
    let mut plan: [u16; PLAN] = vectors::room(pattern(host));
    let held = give(host, case, &mut plan).unwrap_or(PLAN + 1);
    let words = number(case, 1);
    // the graph's first word, in its first run
    let states = vectors::half(part(host, 0), 2);
    let longer = if words == 3 * states {
        words + 1 + i % 4
    } else {
        words
    };
    let text = part(case, 0);
    let grown = number(case, 0) == 1;
    let store = if grown {
        crate::plan::after(host)
    } else {
        crate::plan::before(host)
    };
    let given = Planned {
        graph: front(&room, n),
        plan: front(&plan, words),
        store,
        text,
    };
    let more = Planned {
        graph: given.graph,
        plan: front(&plan, longer),
        store: if grown { with_more(store, text) } else { store },
        text,
    };
    vectors::cases::shaped(case, 6, 1) && words <= held && by_plan(&given, &more, case, i)
}
