// A replay: every case of a list is judged, in turn. The definitions are in specs/Replays.antt.
ghost use Rattle.std.specs.Prelude.{◌≡◌, min, length};
ghost use Rattle.std.proofs.lemmas.List.Edits.{sets};
ghost use Rattle.io.specs.Counts.{IsPrefixLen};
ghost use Rattle.vectors.specs.Walk.{begun};
ghost use Rattle.vectors.specs.Replays.{Replayed};
ghost use Rattle.vectors.specs.Report.{reported};

use crate::report::Kinds;
use crate::walk::Walk;

// Room for a list, and for all that is printed.
const LIST: usize = 524288;

const REPORT: usize = 4096;

// What a verdict is on: a case, the case to which it belongs (itself, if its kind is a leading one), and its number, from 0.
#[derive(Clone, Copy)]
pub struct Turn<'a> {
    pub host: &'a [u8],
    pub case: &'a [u8],
    pub number: usize,
}

// The walk through a whole list, each of whose cases is alike or not, as the verdict says. Cases of a kind below `leading` belong to themselves. (A
// `while`: each case says how long it is. Here and below, what calls a closure asks that it may be called at any time.)
pub fn replay<F: Fn(Turn<'_>) -> bool>(list: &[u8], leading: usize, alike: F) -> Walk
    requires { F.IsAlwaysCallable alike }
    ensures { Replayed list.now (λ turn same. F.post alike turn same) (begun leading) result }
{
    let mut w = crate::walk::begun(leading);
    while w.at < list.len() {
        let turn = Turn {
            host: crate::walk::host(list, w),
            case: crate::walk::next(list, w),
            number: w.cases,
        };
        w = crate::walk::noted(list, w, alike(turn));
    }
    w
}

// What a replay of a list prints, in the front of a lent buffer, as far as there is room: how many bytes.
pub fn told<F: Fn(Turn<'_>) -> bool>(
    kinds: Kinds<'_>,
    list: &[u8],
    alike: F,
    out: &mut [u8],
) -> usize
    requires { F.IsAlwaysCallable alike }
    ensures report { (end : Walk) × Replayed list.now (λ turn same. F.post alike turn same) (begun kinds.entry.leading) end
        × (out.new ≡ sets out.old 0 (reported kinds.entry.names.now list.now end))
        × (result ≡ min (length (reported kinds.entry.names.now list.now end)) (length out.old)) }
    ensures prefix_len { IsPrefixLen result out.new }
{
    let end = replay(list, kinds.leading, alike);
    crate::report::report(kinds, list, end, out)
}

// A program that replays a list: what `told` says of standard input goes to standard output. (That stands in no clause of this function, since those of
// `io` name neither the bytes that it reads nor those that it writes.)
pub fn run<F: Fn(Turn<'_>) -> bool>(kinds: Kinds<'_>, alike: F)
    requires { F.IsAlwaysCallable alike }
{
    let mut space: [u8; LIST] = crate::room(0);
    let n = io::read_full(0, &mut space);
    let mut out: [u8; REPORT] = crate::room(0);
    let size = told(kinds, &space[..n], alike, &mut out);
    io::write_all(1, &out[..size]);
}
