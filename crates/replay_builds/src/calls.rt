// The two calls on a case, each with buffers that are filled with a word of the case before it.
use graph::new::Counts;
use refusals::Refusal;
use vectors::answers::answer;
use vectors::cases::{half, kind, number, part, words};
use vectors::room;
use vectors::words::{front, same};

// Rooms: for any legal table, and for one of a state more; for the graph of 1,024 states; for the errors; for the image of a table, with a byte more.
const TABLE: usize = 273664;

const GRAPH: usize = 264448;

const ERRORS: usize = 1024;

const IMAGE: usize = 547329;

// ---- the image of a table: its words low byte first, and a byte more where one is given

// The words into the front of a lent buffer, as far as there is room.
fn pack(table: &[u16], image: &mut [u8]) {
    for (k, word) in table.iter().enumerate() {
        if k < image.len() / 2 {
            image[2 * k..2 * k + 2].copy_from_slice(&word.to_le_bytes());
        }
    }
}

// The image of a table, with an odd byte if one is given, in a lent buffer: its length.
fn image_of(table: &[u16], odd: &[u8], image: &mut [u8]) -> usize {
    let n = 2 * table.len();
    pack(table, image);
    if n < image.len() {
        image[n] = vectors::byte(odd, 0);
    }
    vectors::after(image, n, odd.len())
}

// ---- a call: the answer, and the buffers, which are filled with a word of the case

// (`replay_readings` has it too, and the call: what both share, `vectors`, stands below the graph.)
fn counts(case: &[u8]) -> Counts {
    Counts {
        states: number(case, 2),
        root: number(case, 3),
        errors: number(case, 4),
        words: number(case, 5),
    }
}

// What a build answers, and what it leaves in the buffers.
#[derive(Clone, Copy)]
struct Outcome<'a> {
    pub answer: Result<Counts, Refusal>,
    pub graph: &'a [u16],
    pub errors: &'a [u16],
}

// A build, from the words of a table or from its image, with this outcome.
fn call_alike<F: Fn(&mut [u16], &mut [u16]) -> Result<Counts, Refusal>>(
    case: &[u8],
    outcome: Outcome<'_>,
    build: F,
) -> bool
    requires { F.IsAlwaysCallable build }
{
    let mut graph: [u16; GRAPH] = room(pattern(case));
    let mut errors: [u16; ERRORS] = room(pattern(case));
    let Some(graph) = graph.get_mut(..outcome.graph.len()) else {
        return false;
    };
    let Some(errors) = errors.get_mut(..outcome.errors.len()) else {
        return false;
    };
    build(graph, errors) == outcome.answer
        && same(graph, outcome.graph)
        && same(errors, outcome.errors)
}

// ---- a case: what has no room in the buffers differs

// What the buffers are filled with.
fn pattern(case: &[u8]) -> u16 {
    half(case, 0)
}

// The call on the image: it answers and leaves what that on words does, unless it is refused, by the case's kind. That is 10 for refusal 13, and then both
// buffers are unchanged.
fn image_alike(case: &[u8], table: &[u16], graph_after: &[u16], errors_after: &[u16]) -> bool {
    let mut bytes: [u8; IMAGE] = room(0);
    let n = image_of(table, part(case, 1), &mut bytes);
    let image = vectors::part(&bytes, 0, n);
    let graph: [u16; GRAPH] = room(pattern(case));
    let errors: [u16; ERRORS] = room(pattern(case));
    let build = |graph: &mut [u16], errors: &mut [u16]| graph::image::from_image(
        image, graph, errors,
    );
    if kind(case) == 10 {
        let unchanged = Outcome {
            answer: Err(Refusal::ImageLength),
            graph: front(&graph, graph_after.len()),
            errors: front(&errors, errors_after.len()),
        };
        return call_alike(case, unchanged, build);
    }
    let Some(answer) = answer(kind(case), counts(case)) else {
        return false;
    };
    let outcome = Outcome {
        answer,
        graph: graph_after,
        errors: errors_after,
    };
    call_alike(case, outcome, build)
}

pub(crate) fn alike(case: &[u8]) -> bool {
    let mut table: [u16; TABLE] = room(0);
    let mut graph: [u16; GRAPH] = room(0);
    let mut errors: [u16; ERRORS] = room(0);
    let Some(n) = words(case, 0, &mut table) else {
        return false;
    };
    let Some(g) = words(case, 2, &mut graph) else {
        return false;
    };
    let Some(e) = words(case, 3, &mut errors) else {
        return false;
    };
    let Some(answer) = answer(number(case, 1), counts(case)) else {
        return false;
    };
    let given = front(&table, n);
    let outcome = Outcome {
        answer,
        graph: front(&graph, g),
        errors: front(&errors, e),
    };
    vectors::cases::shaped(case, 6, 4)
        && part(case, 1).len() <= 1
        && call_alike(
            case,
            outcome,
            |graph: &mut [u16], errors: &mut [u16]| graph::new::new(given, graph, errors),
        )
        && image_alike(case, given, outcome.graph, outcome.errors)
}
