// Signs: a text's, and a number's.

ghost use Rattle.std.specs.Prelude.{◌≡◌, ◌≤◌, get_or};
ghost use Rattle.angles.specs.Angles.{limit, is_hyphen, body, signed};

// A text without its sign, and whether that is a hyphen. (A sign is a value here and below, no choice of a step.)
#[derive(Clone, Copy)]
pub(crate) struct Unsigned<'a> {
    pub below: bool,
    pub body: &'a [u8],
}

pub(crate) fn without_sign(text: &[u8]) -> Unsigned<'_>
    ensures below { result.below ≡ is_hyphen (get_or text.now 0 0) }
    ensures body { result.body.now ≡ body text.now }
{
    match text {
        [b'+', body @ ..] => Unsigned { below: false, body },
        [b'-', body @ ..] => Unsigned { below: true, body },
        _ => Unsigned {
            below: false,
            body: text,
        },
    }
}

pub(crate) fn signed(below: bool, size: u32) -> i32
    requires { size ≤ limit }
    ensures { result ≡ signed below size }
{
    let v = size as i32;
    if below { -v } else { v }
}
