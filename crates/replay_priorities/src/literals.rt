// Priorities of literals: 256 strings of up to four bytes that differ at one place, and strings of any length.
use vectors::cases::{number, part, shaped};

// The priority of a literal of all bytes; none where it is refused, or longer than a half can tell.
fn priority(text: &[u8]) -> Option<u32> {
    let size = u16::try_from(text.len()).ok()?;
    pattern::priority(&[1, 0, u32::from(size), 0, 0, 0], text).ok()
}

// A list says 1 where there is none, which is the priority of no literal.
pub(crate) fn string_alike(case: &[u8]) -> bool {
    shaped(case, 1, 1) && priority(part(case, 0)).unwrap_or(1) as usize == number(case, 0)
}

// The priority of a string of up to four bytes with a byte at a place; none where it is no such string.
fn with_byte(string: &[u8], place: usize, byte: u8) -> Option<u16> {
    let n = string.len();
    if 4 < n || n <= place {
        return None;
    }
    let mut text = [0; 4];
    text[..n].copy_from_slice(string);
    text[place] = byte;
    u16::try_from(priority(&text[..n])?).ok()
}

// A list says 0 where there is none.
pub(crate) fn row_alike(case: &[u8]) -> bool {
    let mut stored = [0u16; 256];
    let n = vectors::cases::words(case, 1, &mut stored);
    let string = part(case, 0);
    let place = number(case, 0);
    shaped(case, 1, 2)
        && n == Some(256)
        && (0..256).all(|b| with_byte(string, place, b as u8).unwrap_or(0) == stored[b])
}
