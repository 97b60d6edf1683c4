// Pattern trees: their priority and the greedy test, refusals too.
ghost use Rattle.std.specs.Prelude.{◌<◌};

use refusals::Refusal;
use vectors::answers::answer;
use vectors::cases::{number, part};

// Room for a tree of 1,024 records and more.
const TREE: usize = 8192;

// The words that bytes are, four each, into the front of a lent buffer of zeros, as far as there is room.
fn unpack(bytes: &[u8], tree: &mut [u32]) {
    let n = tree.len().min(bytes.len() / 4 + 1);
    for (k, word) in tree[..n].iter_mut().enumerate() {
        *word = vectors::word(bytes, 4 * k) as u32;
    }
}

// The answer that numbers j and j + 1 tell. The value of one that is refused is 0.
fn told(case: &[u8], j: usize) -> Option<Result<u32, Refusal>>
    requires { j < 4 }
{
    let value = number(case, j + 1) as u32;
    answer(number(case, j), value).filter(|answer| answer.is_ok() || value == 0)
}

// Both calls on a tree.
fn calls_alike(case: &[u8], tree: &[u32]) -> bool {
    let text = part(case, 1);
    told(case, 0) == Some(pattern::priority(tree, text))
        && told(case, 2) == Some(pattern::check_for_greedy_all(tree, text).map(u32::from))
}

fn on_room(case: &[u8], tree: &mut [u32]) -> bool {
    let bytes = part(case, 0);
    let n = bytes.len() / 4;
    if bytes.len() % 4 != 0 {
        return false;
    }
    unpack(bytes, tree);
    n <= tree.len() && calls_alike(case, &tree[0..n])
}

pub(crate) fn alike(case: &[u8]) -> bool {
    let mut tree: [u32; TREE] = vectors::room(0);
    vectors::cases::shaped(case, 4, 2) && on_room(case, &mut tree)
}
