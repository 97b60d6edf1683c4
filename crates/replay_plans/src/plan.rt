// Planning, against the stored plan: the answer, the buffer whole, and the store bit by bit.
use crate::run::Planned;
use mask_store::MaskStore;
use plans::plan::Planning;
use refusals::Refusal;
use vectors::cases::{half, number, part};
use vectors::words::{front, same};

// Room for the graph of 1,024 states and of one more.
pub(crate) const GRAPH: usize = 265216;

// Room for the plan of such a graph.
pub(crate) const PLAN: usize = 4096;

// What the plan buffers are filled with.
pub(crate) fn pattern(case: &[u8]) -> u16 {
    half(case, 0)
}

// (`replay_classes` has it too: what both share, `vectors`, stands beside `mask_store`.)
fn store_of(case: &[u8], masks: &[u8], count: usize) -> MaskStore {
    MaskStore {
        tables: vectors::masks::tables((number(case, 1) % 256) as u8, masks),
        count,
    }
}

// The store before planning, and after it.
pub(crate) fn before(case: &[u8]) -> MaskStore {
    store_of(case, part(case, 1), number(case, 2))
}

pub(crate) fn after(case: &[u8]) -> MaskStore {
    store_of(case, part(case, 2), number(case, 3))
}

// How many classes the store gains.
pub(crate) fn gained(case: &[u8]) -> usize {
    number(case, 3).saturating_sub(number(case, 2))
}

// A call on a buffer of the stored words' number, which is then to hold these.
fn call_alike<F: Fn(&[u16], &mut [u16], MaskStore) -> Planning>(
    case: &[u8],
    graph: &[u16],
    answer: Result<usize, Refusal>,
    call: F,
    out_after: &[u16],
) -> bool
    requires { F.IsAlwaysCallable call }
{
    let mut room: [u16; PLAN] = vectors::room(pattern(case));
    let n = out_after.len();
    if room.len() < n {
        return false;
    }
    let out = &mut room[..n];
    let p = call(graph, out, before(case));
    p.answer == answer && p.store == after(case) && same(&room[..n], out_after)
}

// The case with number i: on a buffer of the stored length, and by the second call on a longer one. Where 14 refuses the first, the second may do. Where
// planning is refused, so is a run, of any text, and by the same number: 12 and 15 do not look at the plan, and 14 at its length first.
pub(crate) fn alike<F, G>(
    case: &[u8],
    answer: Result<usize, Refusal>,
    i: usize,
    first: F,
    second: G,
) -> bool
where
    F: Fn(&[u16], &mut [u16], MaskStore) -> Planning,
    G: Fn(&[u16], &mut [u16], MaskStore) -> Planning,
    requires first { F.IsAlwaysCallable first }
    requires second { G.IsAlwaysCallable second }
{
    let mut room: [u16; GRAPH] = vectors::room(0);
    let Some(n) = vectors::cases::words(case, 0, &mut room) else {
        return false;
    };
    let graph = front(&room, n);
    let mut out: [u16; PLAN] = vectors::room(pattern(case));
    let Some(size) = vectors::cases::words(case, 3, &mut out) else {
        return false;
    };
    let just = front(&out, size);
    let longer = front(&out, size.saturating_add(1 + i % 5));
    let planned = Planned {
        graph,
        plan: just,
        store: before(case),
        text: part(case, 0),
    };
    vectors::cases::shaped(case, 4, 4)
        && call_alike(case, graph, answer, first, just)
        && (answer == Err(Refusal::PlanOrOffset) || call_alike(case, graph, answer, second, longer))
        && match answer {
            Ok(_) => true,
            Err(refusal) => planned.refused(refusal),
        }
}
