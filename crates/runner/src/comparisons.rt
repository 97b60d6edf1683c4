// The comparisons of an edge.
ghost use Rattle.std.specs.Prelude.{◌≡◌};
ghost use Rattle.classes.specs.Classes.{some_holds};
ghost use Rattle.runner.specs.Prepared.{tests_of};

use crate::edge::{Edge, LIST};
use classes::byte_class::some_holds;

// Whether one of them holds of the byte, however many there are. It stays out of the run's loop, which then keeps what it reads in registers.
#[inline(never)]
fn listed_hold(edge: &Edge, byte: u8) -> bool
    ensures { result ≡ some_holds (tests_of edge.now) byte }
{
    let count = (edge.count as usize).min(LIST);
    some_holds(&edge.list[..count], &edge.except, byte)
}

// Whether one of them holds of the byte. Most edges have one range and no exception: a token's byte is then tested by two comparisons and nothing
// else.
#[inline(always)]
pub(crate) fn edge_holds(edge: &Edge, byte: u8) -> bool
    ensures { result ≡ some_holds (tests_of edge.now) byte }
{
    let one = edge.list[0];
    if edge.count == 1 && one.holes == 0 {
        one.first <= byte && byte <= one.last
    } else {
        listed_hold(edge, byte)
    }
}
