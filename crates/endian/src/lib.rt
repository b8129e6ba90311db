// Big-endian numbers read from a byte slice, and bytes laid into one, at a place. Every function takes any place: past the end a
// reader finds zeros and the writer refuses. Rests on specs/Places.antt and specs/Laid.antt.
#![tactic(auto)]

ghost use Rattle.std.specs.Prelude.{◌≡◌, length, get_or};
ghost use Rattle.endian.specs.Bytes.{words};
ghost use Rattle.endian.specs.Places.{word16, word32};
ghost use Rattle.endian.specs.Laid.{has_room, stored};

pub fn get8(s: &[u8], at: usize) -> u8
    ensures { result ≡ get_or s.now at 0 }
{
    s.get(at).copied().unwrap_or(0)
}

pub fn get16(s: &[u8], at: usize) -> u16
    ensures { result ≡ word16 s.now at }
{
    // past the end `at + 1` might wrap
    if at < s.len() {
        u16::from_be_bytes([s[at], get8(s, at + 1)])
    } else {
        0
    }
}

pub fn get32(s: &[u8], at: usize) -> u32
    ensures { result ≡ word32 s.now at }
{
    if at < s.len() {
        u32::from_be_bytes([s[at], get8(s, at + 1), get8(s, at + 2), get8(s, at + 3)])
    } else {
        0
    }
}

// The numbers of `s`, four bytes each, into the front of `out`; or no, and `out` as it is, where they are too many.
pub fn get_words(s: &[u8], out: &mut [u32]) -> bool
    ensures answer { result ≡ has_room out.old 0 (length (words s.now)) }
    ensures buffer { out.new ≡ stored out.old 0 (words s.now) }
{
    let n = s.len() / 4;
    if out.len() < n {
        return false;
    }
    let front = &mut out[..n];
    for (i, slot) in front.iter_mut().enumerate() {
        *slot = get32(s, 4 * i);
    }
    true
}

// Lays all of `bytes` over `out` from the place on and says yes, or says no and leaves `out` as it is.
pub fn put(out: &mut [u8], at: usize, bytes: &[u8]) -> bool
    ensures answer { result ≡ has_room out.old at (length bytes.now) }
    ensures buffer { out.new ≡ stored out.old at bytes.now }
{
    let n = bytes.len();
    if out.len() < n || out.len() - n < at {
        return false;
    }
    out[at..at + n].copy_from_slice(bytes);
    true
}
