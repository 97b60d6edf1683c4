// Stored lists of answers (docs/ORACLE.md, "Stored lists"), for the programs that replay them: numbers and words read from a list, and
// what a replay counts and prints.
//
// A list is a slice of bytes. A reader takes any place: what lies past the end is 0. A place never passes one byte past the end, so that a list
// that ends too early is told from one that is read whole. What each reader answers is defined in specs/Reading.antt.
#![tactic(auto)]

ghost use Rattle.std.specs.Prelude.{◌≡◌, ◌<◌, min, ◌+◌, length, replicate};
ghost use Rattle.vectors.specs.Reading.{byte_at, half_at, word_at, bit_at, flags_at, part_at};

pub mod answers;
pub mod cases;
pub mod masks;
pub mod parts;
pub mod replay;
pub mod report;
pub mod walk;
pub mod words;

// Room for a list, or for what a call is lent, filled with one element. (An array: the repository has no heap.) Large buffers are made by a call: to
// lend an array that it makes itself, a function has to prove its length, which is found by counting.
pub fn room<T: Copy, const N: usize>(fill: T) -> [T; N]
    ensures { result ≡ replicate N fill }
{
    [fill; N]
}

// The byte at a place.
pub fn byte(list: &[u8], at: usize) -> u8
    ensures { result ≡ byte_at list.now at }
{
    list.get(at).copied().unwrap_or(0)
}

// The byte k places on.
fn byte_on(list: &[u8], at: usize, k: usize) -> u8
    ensures { result ≡ byte_at list.now (at + k) }
{
    byte(list, at.saturating_add(k))
}

// The byte at a place, as a number.
pub fn count(list: &[u8], at: usize) -> usize
    ensures { (result ≡ byte_at list.now at) × (result < 256) }
{
    usize::from(byte(list, at))
}

// The half at a place: 16 bits, low byte first.
pub fn half(list: &[u8], at: usize) -> usize
    ensures { (result ≡ half_at list.now at) × (result < 65536) }
{
    usize::from(u16::from_le_bytes([byte(list, at), byte_on(list, at, 1)]))
}

// The word at a place: 32 bits, low byte first.
pub fn word(list: &[u8], at: usize) -> usize
    ensures { (result ≡ word_at list.now at) × (result < 4294967296) }
{
    let bytes = [
        byte(list, at),
        byte_on(list, at, 1),
        byte_on(list, at, 2),
        byte_on(list, at, 3),
    ];
    u32::from_le_bytes(bytes) as usize
}

// The place n bytes on, or one past the end.
pub fn after(list: &[u8], at: usize, n: usize) -> usize
    ensures { result ≡ min (at + n) (length list.now + 1) }
{
    at.saturating_add(n).min(list.len() + 1)
}

// Bit i from a place on: bit i mod 8 of byte i / 8.
pub fn bit(list: &[u8], at: usize, i: usize) -> bool
    ensures { result ≡ bit_at list.now at i }
{
    bits::test_bit(byte_on(list, at, i / 8), i % 8)
}

// The 256 flags of the class at a place: 32 bytes.
pub fn flags(list: &[u8], at: usize) -> [bool; 256]
    ensures { result ≡ flags_at list.now at }
{
    let mut class = [false; 256];
    for (b, flag) in class.iter_mut().enumerate() {
        *flag = bit(list, at, b);
    }
    class
}

// The n elements at a place; none where the list has fewer. (Empty then, and no Option: each caller would take none for no bytes.)
pub fn part<T>(list: &[T], at: usize, n: usize) -> &[T]
    ensures { result.now ≡ part_at list.now at n }
{
    let Some(rest) = list.get(at..) else {
        return &list[..0];
    };
    match rest.get(..n) {
        Some(part) => part,
        None => &list[..0],
    }
}
