// A walk through a list, case by case, and what is counted on the way, by kind. The definitions are in specs/Walk.antt.
ghost use Rattle.std.specs.Prelude.{◌≡◌, ◌<◌, length};
ghost use Rattle.vectors.specs.Cases.{case_at};
ghost use Rattle.vectors.specs.Walk.{kind_at, told, counted, first_of, begun, host_of, noted};

// Kinds are 0 to 14; any other is counted as this one.
const UNKNOWN: usize = 15;

// How many cases of a kind were alike, and how many differ.
#[derive(Clone, Copy)]
pub struct Tally {
    pub alike: usize,
    pub differ: usize,
}

impl Tally {
    pub const NONE: Tally = Tally {
        alike: 0,
        differ: 0,
    };

    // One case more; the largest number stays. (`same`, here and below, is a verdict, which is what is counted.)
    fn told(self, same: bool) -> Tally
        ensures { result ≡ told self same }
    {
        if same {
            Tally {
                alike: self.alike.saturating_add(1),
                differ: self.differ,
            }
        } else {
            Tally {
                alike: self.alike,
                differ: self.differ.saturating_add(1),
            }
        }
    }
}

// The place of the next case; the place of the last one of a kind below `leading`, to which those of other kinds belong; how many cases there were, which
// of them, from 0, was the first that differs, and the tally of each kind.
#[derive(Clone, Copy)]
pub struct Walk {
    pub at: usize,
    pub host: usize,
    pub leading: usize,
    pub cases: usize,
    pub first: Option<usize>,
    pub tallies: [Tally; 16],
}

pub fn begun(leading: usize) -> Walk
    ensures { result ≡ begun leading }
{
    Walk {
        at: 0,
        host: 0,
        leading: leading,
        cases: 0,
        first: None,
        tallies: [Tally::NONE; 16],
    }
}

// The case that is next.
pub fn next(list: &[u8], w: Walk) -> &[u8]
    ensures { result.now ≡ case_at list.now w.at }
{
    crate::cases::at(list, w.at)
}

// The case to which the next one belongs: itself, if its kind is a leading one.
pub fn host(list: &[u8], w: Walk) -> &[u8]
    ensures { result.now ≡ host_of list.now w }
{
    let next = crate::cases::at(list, w.at);
    if crate::cases::kind(next) < w.leading {
        return next;
    }
    crate::cases::at(list, w.host)
}

// The tallies with one case more of a kind.
fn counted(mut tallies: [Tally; 16], kind: usize, same: bool) -> [Tally; 16]
    ensures { result ≡ counted tallies kind same }
{
    let k = kind.min(UNKNOWN);
    tallies[k] = tallies[k].told(same);
    tallies
}

// The first case that differs, after case `number`.
fn first_of(first: Option<usize>, number: usize, same: bool) -> Option<usize>
    ensures { result ≡ first_of first number same }
{
    if same { first } else { first.or(Some(number)) }
}

// The next case was alike or not; and on to the one after it, or past the end of a list that has not all of it.
pub fn noted(list: &[u8], w: Walk, same: bool) -> Walk
    ensures value { result ≡ noted list.now w same }
    ensures counts { result.tallies ≡ counted w.tallies (kind_at list.now w.at) same }
    ensures at_lt_at { w.at < length list.now → w.at < result.at }
{
    let leads = crate::cases::kind(crate::cases::at(list, w.at)) < w.leading;
    let kind = usize::from(crate::byte_on(list, w.at, 4));
    Walk {
        at: crate::after(list, w.at, 4 + crate::word(list, w.at)),
        host: if leads { w.at } else { w.host },
        leading: w.leading,
        cases: w.cases.saturating_add(1),
        first: first_of(w.first, w.cases, same),
        tallies: counted(w.tallies, kind, same),
    }
}
