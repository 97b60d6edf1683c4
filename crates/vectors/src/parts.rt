// Buffers of bytes, compared with a part of a case and with what they were before a call.
ghost use Rattle.std.specs.Prelude.{◌≡◌};
ghost use Rattle.vectors.specs.Parts.{rest_is, Tells, Padded, Written, filled};

// A buffer as it is before call i: no text has such bytes, which change from place to place and from call to call.
pub fn filled(i: usize) -> [u8; 65536]
    ensures { result ≡ filled i }
{
    let mut bytes = [0; 65536];
    for (k, byte) in bytes.iter_mut().enumerate() {
        *byte = 128 + ((i % 128 + k % 128) % 128) as u8;
    }
    bytes
}

// Whether every byte from i on has that value.
pub fn rest_is(a: &[u8], i: usize, value: u8) -> bool
    ensures { result ≡ rest_is a.now i value }
{
    a.iter().skip(i).all(|b| *b == value)
}

// Whether a buffer begins with those bytes, and every further one has that value.
pub fn padded(a: &[u8], front: &[u8], value: u8) -> bool
    ensures { Tells result (Padded a.now front.now value) }
{
    a.starts_with(front) && rest_is(a, front.len(), value)
}

// Whether a buffer is a text, and behind it as it was before.
pub fn written(a: &[u8], text: &[u8], before: &[u8]) -> bool
    ensures { Tells result (Written a.now text.now before.now) }
{
    match a.strip_prefix(text) {
        Some(rest) => a.len() <= before.len() && rest == &before[text.len()..a.len()],
        None => false,
    }
}
