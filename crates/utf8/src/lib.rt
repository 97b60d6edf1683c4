// The code points of a text, if it is well-formed UTF-8 (Unicode, Table 3-7).
#![tactic(auto)]

ghost use Rattle.std.specs.Prelude.{◌≡◌};
ghost use Rattle.utf8.specs.Utf8.{code_points};
ghost use Rattle.utf8.specs.Points.{low_of, high_of};

pub mod widths;

use widths::Widths;

// The least second byte after a lead byte: E0 and F0 would else begin a sequence that is longer than need be.
fn second_low(lead: u8) -> u8
    ensures { result ≡ low_of lead }
{
    match lead {
        0xE0 => 0xA0,
        0xF0 => 0x90,
        _ => 0x80,
    }
}

// The greatest second byte after a lead byte: ED would else begin a surrogate, F4 a number above 10FFFF.
fn second_high(lead: u8) -> u8
    ensures { result ≡ high_of lead }
{
    match lead {
        0xED => 0x9F,
        0xF4 => 0x8F,
        _ => 0xBF,
    }
}

// The number of sequences that a text divides into, if it does; `due` bytes of the last one begun are still to come, the next of them in low..high.
pub fn code_points(text: &[u8], widths: &Widths) -> Option<usize>
    ensures { result ≡ code_points text.now }
{
    let mut n = 0;
    let mut due = 0;
    let mut low = 0x80;
    let mut high = 0xBF;
    for &b in text {
        if due == 0 {
            due = widths.of(b)? as usize - 1;
            n += 1;
            low = second_low(b);
            high = second_high(b);
            continue;
        }
        if b < low || high < b {
            return None;
        }
        due -= 1;
        low = 0x80;
        high = 0xBF;
    }
    if due == 0 { Some(n) } else { None }
}
