// Buffers of words: unpacked from a list, and compared.
//
// Words in runs stand in a list as bytes, four for each run: half, how often; half, which word. The definitions are in specs/Runs.antt.
ghost use Rattle.std.specs.Prelude.{◌≡◌, ◌-◌, ◌≤◌, length, replicate};
ghost use Rattle.std.proofs.lemmas.List.Edits.{sets};
ghost use Rattle.vectors.specs.Reading.{part_at};
ghost use Rattle.vectors.specs.Runs.{words_of, fitting};
ghost use Rattle.vectors.specs.Parts.{Tells};

// The words from i up to j get that value.
fn fill(words: &mut [u16], i: usize, j: usize, value: u16)
    requires order { i ≤ j }
    requires room { j ≤ length words.old }
    ensures { words.new ≡ sets words.old i (replicate (j - i) value) }
{
    words[i..j].fill(value);
}

// The words of runs, written into the front of a lent buffer, as far as there is room: how many they are; none where they are more than the buffer has.
pub fn unpack(runs: &[u8], out: &mut [u16]) -> Option<usize>
    ensures value { result ≡ fitting (length (words_of runs.now)) (length out.old) }
    ensures out_after { out.new ≡ sets out.old 0 (words_of runs.now) }
{
    let mut from = 0;
    for r in 0..runs.len() / 4 {
        let to = from + crate::half(runs, 4 * r);
        let value = crate::half(runs, 4 * r + 2) as u16;
        if out.len() < to {
            fill(out, from, out.len(), value);
            return None;
        }
        fill(out, from, to, value);
        from = to;
    }
    Some(from)
}

// What a buffer of entries is filled with before a call: no entry has such a number.
pub const UNLISTED: usize = 12297829382473034410;

// Room for entries, none listed.
pub fn unlisted<const N: usize>() -> [usize; N]
    ensures { result ≡ replicate N 12297829382473034410 }
{
    [UNLISTED; N]
}

// The first n words of a buffer; none where it has fewer.
pub fn front(words: &[u16], n: usize) -> &[u16]
    ensures { result.now ≡ part_at words.now 0 n }
{
    crate::part(words, 0, n)
}

// Whether two buffers hold the same: words, or entries of a scan.
pub fn same<T: PartialEq>(a: &[T], b: &[T]) -> bool
    ensures { ((x y : T) → Tells (T.eq x y) (x ≡ y)) → Tells result (a.now ≡ b.now) }
{
    a == b
}
