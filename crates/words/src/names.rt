// New names of states: the members of a set, by their numbers in it.
ghost use Rattle.std.specs.Prelude.{◌≡◌};
ghost use Rattle.lists.specs.Lists.{number_from};

use crate::STATES;

// The members of a set, numbered in ascending order; none elsewhere.
pub fn numbered(set: &[bool; STATES]) -> [Option<u16>; STATES]
    ensures { result ≡ number_from 0 set.now }
{
    let mut out: [Option<u16>; STATES] = [None; STATES];
    let mut k: usize = 0;
    for s in 0..STATES {
        if set[s] {
            out[s] = Some(k as u16);
            k += 1;
        }
    }
    out
}
