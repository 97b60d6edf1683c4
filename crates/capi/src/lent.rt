// What is read from lent bytes, and written to them.
ghost use Rattle.std.specs.Prelude.{◌≡◌, [], ◌∷◌};
ghost use Rattle.capi.specs.Lent.{is_flag, flags_of, put, put_report};

// Whether entry b is there and not 0.
fn is_flag(flags: &[u8], b: usize) -> bool
    ensures { result ≡ is_flag flags.now b }
{
    flags.get(b).copied().unwrap_or(0) != 0
}

// The class of lent bytes.
pub(crate) fn flags_of(flags: &[u8]) -> [bool; 256]
    ensures { result ≡ flags_of flags.now }
{
    let mut class = [false; 256];
    for (b, flag) in class.iter_mut().enumerate() {
        *flag = is_flag(flags, b);
    }
    class
}

// The bytes handed out in a lent block, or 255, and the block unchanged. (A number: 255 is of the C interface alone, and no refusal has it.)
pub(crate) fn put(bytes: &[u8], block: &mut [u8]) -> u8
    ensures { (result ≡ (put bytes.now block.old).refusal) × (block.new ≡ (put bytes.now block.old).block) }
{
    if block.len() < bytes.len() {
        return 255;
    }
    block[..bytes.len()].copy_from_slice(bytes);
    0
}

// The same with a count beside the bytes.
pub(crate) fn put_counted(bytes: &[u8], n: usize, block: &mut [u8], count: &mut usize) -> u8
    ensures n_value { put_report (put bytes.now block.old) n ≡ record { refusal = result; values = count.new ∷ [] } }
    ensures block_after { block.new ≡ (put bytes.now block.old).block }
{
    let refusal = put(bytes, block);
    *count = if refusal == 0 { n } else { 0 };
    refusal
}
