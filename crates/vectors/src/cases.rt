// What a case of a list holds (docs/ORACLE.md, "Stored lists").
//
// A case is a slice of its own bytes, from its kind on: byte kind; byte, how many numbers; byte, how many parts; the numbers, a word each; for each
// part a word, where it ends, counted from where the first begins; the parts. In the list a word stands before it, its length. The definitions are in
// specs/Cases.antt.
ghost use Rattle.std.specs.Prelude.{◌≡◌, ◌<◌, ◌%◌};
ghost use Rattle.vectors.specs.Cases.{case_at, kind_of, number_of, end_of, part_of, shaped};
ghost use Rattle.vectors.specs.Runs.{how_many, unpacked};

// The case at a place of a list; none where the list has not all of it.
pub(crate) fn at(list: &[u8], at: usize) -> &[u8]
    ensures { result.now ≡ case_at list.now at }
{
    crate::part(list, at.saturating_add(4), crate::word(list, at))
}

// (A number, as it stands in the list: each list has kinds of its own.)
pub fn kind(case: &[u8]) -> usize
    ensures { (result ≡ kind_of case.now) × (result < 256) }
{
    crate::count(case, 0)
}

pub fn number(case: &[u8], j: usize) -> usize
    requires { j < 1024 }
    ensures { (result ≡ number_of case.now j) × (result < 4294967296) }
{
    crate::word(case, 3 + 4 * j)
}

// Number j, as a half: its low 16 bits.
pub fn half(case: &[u8], j: usize) -> u16
    requires { j < 1024 }
    ensures { result ≡ number_of case.now j % 65536 }
{
    (number(case, j) % 65536) as u16
}

// Where the first k parts end, in the case.
fn end(case: &[u8], k: usize) -> usize
    requires { k < 257 }
    ensures { (result ≡ end_of case.now k) × (result < 4294971392) }
{
    let n = crate::count(case, 1);
    let first = 3 + 4 * (n + crate::count(case, 2));
    if k == 0 {
        first
    } else {
        first + number(case, n + k - 1)
    }
}

// Part k; none where it ends before it begins, or the case has not all of it.
pub fn part(case: &[u8], k: u8) -> &[u8]
    ensures { result.now ≡ part_of case.now k }
{
    let k = usize::from(k);
    let from = end(case, k);
    crate::part(case, from, end(case, k + 1).saturating_sub(from))
}

// Whether a case has so many numbers and parts, and no byte more or less.
pub fn shaped(case: &[u8], numbers: usize, parts: u8) -> bool
    ensures { result ≡ shaped case.now numbers parts }
{
    let parts = usize::from(parts);
    crate::count(case, 1) == numbers
        && crate::count(case, 2) == parts
        && end(case, parts) == case.len()
}

// The words in runs that part k is, written into the front of a lent buffer, as far as there is room: how many; none where they are more, or the part is
// no runs.
pub fn words(case: &[u8], k: u8, out: &mut [u16]) -> Option<usize>
    ensures value { result ≡ how_many (part_of case.now k) out.old }
    ensures out_after { out.new ≡ unpacked (part_of case.now k) out.old }
{
    let runs = part(case, k);
    if runs.len() % 4 == 0 {
        crate::words::unpack(runs, out)
    } else {
        None
    }
}
