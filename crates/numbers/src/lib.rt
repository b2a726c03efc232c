// Numbers in lent bytes, the lowest byte first. A width is a number of bytes and no enum, since places are counted on by it. `number` and
// `put_number` are the functions for every width; two and four bytes have a function each besides, where the width is known: each is one call
// of the library, and that has another one for each width.
#![tactic(auto)]

ghost use Rattle.std.specs.Prelude.{◌≡◌, ◌+◌, ◌<◌, ◌≤◌, length};
ghost use Rattle.numbers.specs.Words.{Width, number_at, put_at, word, put};

// The number in two bytes.
pub fn get16(s: &[u8], i: usize) -> u16
    requires { i + 2 ≤ length s.now }
    ensures { result ≡ number_at 2 s.now i }
{
    u16::from_le_bytes([s[i], s[i + 1]])
}

// The lowest two bytes of a number.
pub fn put16(s: &mut [u8], i: usize, v: u32)
    requires { i + 2 ≤ length s.old }
    ensures { s.new ≡ put_at 2 s.old i v }
{
    s[i..i + 2].copy_from_slice(&v.to_le_bytes()[..2]);
}

// The number in four bytes.
pub fn get32(s: &[u8], i: usize) -> u32
    requires { i + 4 ≤ length s.now }
    ensures { result ≡ word s.now i }
{
    u32::from_le_bytes([s[i], s[i + 1], s[i + 2], s[i + 3]])
}

pub fn put32(s: &mut [u8], i: usize, v: u32)
    requires { i + 4 ≤ length s.old }
    ensures { s.new ≡ put s.old i v }
{
    s[i..i + 4].copy_from_slice(&v.to_le_bytes());
}

// The number in w bytes.
pub fn number(s: &[u8], i: usize, w: usize) -> u32
    requires { Width w × (i + w ≤ length s.now) }
    ensures { result ≡ number_at w s.now i }
{
    match w {
        4 => get32(s, i),
        2 => u32::from(get16(s, i)),
        _ => 0,
    }
}

pub fn put_number(s: &mut [u8], i: usize, w: usize, v: u32)
    requires { Width w × (i + w ≤ length s.old) }
    ensures { s.new ≡ put_at w s.old i v }
{
    match w {
        4 => put32(s, i, v),
        2 => put16(s, i, v),
        _ => (),
    }
}
