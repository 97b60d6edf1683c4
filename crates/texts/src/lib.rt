// Texts, written into a lent buffer from a place on: a byte, the bytes of a text, a number in decimal. Each function hands out the place after what
// it wrote. What passes the buffer's end is counted and not written, so that a run over no bytes measures a text.
//
// Buffer and place stay two parameters: a struct around the `&mut` would have each contract say both of what it lends and of itself, and read no plainer.
//
// No Display and no `write!`: what passes the end is counted and not written, so that the run that measures is the one that writes, and refusal 29 leaves
// the buffer as it was; and the contracts say each byte.
//
// Texts and the writing of them are defined in specs/Text.antt; texts written one after another are in proofs/Writing.antt, how many digits a number
// has at most in proofs/Decimals.antt, texts with separators in proofs/Joins.antt.
#![tactic(auto)]

ghost use Rattle.std.specs.Prelude.{◌≡◌, [], ◌∷◌, ◌++◌, ◌+◌, ◌<◌};
ghost use Rattle.texts.specs.Text.{one, decimal, Wrote, Counts};

// One byte.
pub fn byte(out: &mut [u8], at: usize, b: u8) -> usize
    requires { Counts at (one b) }
    ensures { Wrote out.old at (one b) out.new result }
{
    if at < out.len() {
        out[at] = b;
    }
    at + 1
}

// Two bytes.
pub fn pair(out: &mut [u8], at: usize, a: u8, b: u8) -> usize
    requires { Counts at (a ∷ b ∷ []) }
    ensures { Wrote out.old at (a ∷ b ∷ []) out.new result }
{
    bytes(out, at, &[a, b])
}

// The bytes of a text.
pub fn bytes(out: &mut [u8], at: usize, text: &[u8]) -> usize
    requires { Counts at text.now }
    ensures { Wrote out.old at text.now out.new result }
{
    let mut next = at;
    for &b in text {
        next = byte(out, next, b);
    }
    next
}

// A number in decimal.
pub fn number(out: &mut [u8], at: usize, n: usize) -> usize
    requires { Counts at (decimal n) }
    ensures { Wrote out.old at (decimal n) out.new result }
{
    if n < 10 {
        return byte(out, at, digit(n));
    }
    let next = number(out, at, n / 10);
    byte(out, next, digit(n % 10))
}

// The digit of a number below 10.
fn digit(d: usize) -> u8
    requires { d < 10 }
    ensures { result ≡ 48 + d }
{
    b'0' + d as u8
}

// A text with a number after it.
pub fn numbered(out: &mut [u8], at: usize, text: &[u8], n: usize) -> usize
    requires { Counts at (text.now ++ decimal n) }
    ensures { Wrote out.old at (text.now ++ decimal n) out.new result }
{
    let next = bytes(out, at, text);
    number(out, next, n)
}
