// Bytes and values, which every reader of a file takes apart; elements by index, masks.
#![tactic(auto)]

ghost use Rattle.std.specs.Prelude.{◌≡◌, false, ◌+◌, ◌<◌, ◌≤◌, get_or, length};
ghost use Rattle.base.specs.Value.{value_at};
ghost use Rattle.base.specs.Lists.{pad};
ghost use Rattle.base.specs.Mask.{mask, bits_of};

// The element at an index, or another value past the end.
pub fn get_or<T: Copy>(items: &[T], at: usize, other: T) -> T
    ensures { result ≡ get_or items.now at other }
{
    items.get(at).copied().unwrap_or(other)
}

// The mask of eight flags: bit v set where flag v is.
pub fn mask_of(flags: [bool; 8]) -> u32
    ensures { result ≡ mask flags }
{
    let mut bits: u32 = 0;
    for v in (0..8).rev() {
        bits = u32::from(flags[v]) + 2 * bits;
    }
    bits
}

// The lowest m bits of a number, as flags.
pub fn bits_of(number: u32, m: usize) -> [bool; 8]
    requires { m ≤ 8 }
    ensures { result ≡ pad 8 false (bits_of m number) }
{
    let mut bits = [false; 8];
    let mut rest = number;
    // that m is at most 8 is told again, for the compiler: it then unrolls the loop
    for k in 0..m.min(8) {
        bits[k] = rest % 2 == 1;
        rest /= 2;
    }
    bits
}

// The byte at an offset, 0 past the end.
pub fn byte_at(b: &[u8], at: usize) -> u32
    ensures { (result ≡ get_or b.now at 0) × (result < 256) }
{
    u32::from(get_or(b, at, 0))
}

// The value of 4 bytes, big-endian, that are all there.
pub fn value_inside(b: &[u8], at: usize) -> u32
    requires { at + 4 ≤ length b.now }
    ensures { result ≡ value_at b.now at }
{
    u32::from_be_bytes([b[at], b[at + 1], b[at + 2], b[at + 3]])
}

// The value of 4 bytes, big-endian, that begins at an offset; a byte past the end is 0.
pub fn value_at(b: &[u8], at: usize) -> u32
    ensures { result ≡ value_at b.now at }
{
    if 4 <= b.len() && at <= b.len() - 4 {
        return value_inside(b, at);
    }
    if b.len() <= at {
        return 0;
    }
    let bytes = [
        b[at],
        get_or(b, at + 1, 0),
        get_or(b, at + 2, 0),
        get_or(b, at + 3, 0),
    ];
    u32::from_be_bytes(bytes)
}
