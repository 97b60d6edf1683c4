// The tables of a mask store, as a list holds them: the classes of masks 0, 1, .., 32 bytes each, and a byte that fills the bits of all other masks. The
// definitions are in specs/Masks.antt.
ghost use Rattle.std.specs.Prelude.{◌≡◌, ◌<◌, ◌*◌};
ghost use Rattle.vectors.specs.Masks.{mask_has, with_mask, masked, tables};

// Whether mask i has byte b.
fn mask_has(fill: u8, classes: &[u8], i: usize, b: usize) -> bool
    requires { i < 64 }
    ensures { result ≡ mask_has fill classes.now i b }
{
    if 32 * i < classes.len() {
        crate::bit(classes, 32 * i, b)
    } else {
        bits::test_bit(fill, i % 8)
    }
}

// Entry b of table t.
fn entry(fill: u8, classes: &[u8], t: usize, b: usize) -> u8
    requires { t < 8 }
    ensures { result ≡ masked fill classes.now (8 * t) b 8 }
{
    let mut bits = 0;
    for k in 0..8 {
        bits = bits::with_bit(bits, k, mask_has(fill, classes, 8 * t + k, b));
    }
    bits
}

pub fn tables(fill: u8, classes: &[u8]) -> [u8; 2048]
    ensures { result ≡ tables fill classes.now }
{
    let mut tables = [0; 2048];
    for (i, bits) in tables.iter_mut().enumerate() {
        *bits = entry(fill, classes, i / 256, i % 256);
    }
    tables
}
