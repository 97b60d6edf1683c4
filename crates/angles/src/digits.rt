// A text without its sign taken apart: the digits before and after the point, and the number that they mean.

ghost use Rattle.std.specs.Prelude.{◌≡◌, true, cond, ◌≤◌, eqb, length};
ghost use Rattle.std.specs.Char.{is_ascii_digit};
ghost use Rattle.std.specs.List.{take_while};
ghost use Rattle.lists.specs.Lists.{all_l, eq_list};
ghost use Rattle.angles.specs.Angles.{is_digit, number, shaped, magnitude, hyphens};

// Whether a text is three hyphens.
pub(crate) fn is_missing(text: &[u8]) -> bool
    ensures { result ≡ eq_list eqb text.now hyphens }
{
    text == b"---".as_slice()
}

// How many digits stand in front.
fn whole(body: &[u8]) -> usize
    ensures value { result ≡ length (take_while is_ascii_digit body.now) }
    ensures within { result ≤ length body.now }
{
    body.iter().take_while(|b| b.is_ascii_digit()).count()
}

// The number of at most three digits.
fn number(digits: &[u8]) -> u32
    requires { (length digits.now ≤ 3) × (all_l is_digit digits.now ≡ true) }
    ensures { result ≡ number digits.now }
{
    let mut n = 0;
    for &digit in digits {
        n = n * 10 + (digit - b'0') as u32;
    }
    n
}

// The hundredths that a text without its sign means: one to three digits, a point, and one or two digits. A longer text is none, and is not looked into.
pub(crate) fn magnitude(body: &[u8]) -> Option<u32>
    ensures { result ≡ cond (shaped body.now) (Some (magnitude body.now)) None }
{
    if 6 < body.len() {
        return None;
    }
    let point = whole(body);
    if point < 1 || 3 < point || body.len() <= point || body[point] != b'.' {
        return None;
    }
    let fraction = &body[point + 1..];
    let few = fraction.len();
    if few < 1 || 2 < few || whole(fraction) < few {
        return None;
    }
    let degrees = number(&body[..point]);
    let parts = number(fraction);
    Some(if few == 1 {
        100 * degrees + 10 * parts
    } else {
        100 * degrees + parts
    })
}
