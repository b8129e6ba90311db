// A number as decimal digits in a byte slice. Rests on `endian` and on specs/Decimal.antt. The digits are counted by the definition's
// recursion, and written by it from the last one on; the compiler makes loops of both. `Display` would need a String, and the service has
// no heap; a library that writes digits in place would have to be believed beside the toolchain.
#![tactic(auto)]

ghost use Rattle.std.specs.Prelude.{◌≡◌, ◌≤◌, length};
ghost use Rattle.endian.specs.Laid.{stored};
ghost use Rattle.decimal.specs.Decimal.{decimal};
ghost use Rattle.decimal.specs.Written.{written_count};

pub fn digit_count(x: u32) -> usize
    ensures count { result ≡ length (decimal x) }
    ensures few { result ≤ 10 }
{
    if x < 10 { 1 } else { digit_count(x / 10) + 1 }
}

// Writes the digits over all of a slice that has just their length.
fn spell(x: u32, out: &mut [u8])
    requires { length out.old ≡ length (decimal x) }
    ensures buffer { out.new ≡ decimal x }
{
    let last = out.len() - 1;
    out[last] = b'0' + (x % 10) as u8;
    if 10 <= x {
        spell(x / 10, &mut out[..last]);
    }
}

// Writes the digits from the place on and says how many there are. Without room for all of them nothing is written.
pub fn put_decimal(x: u32, out: &mut [u8], at: usize) -> Option<usize>
    ensures answer { result ≡ written_count out.old at (decimal x) }
    ensures buffer { out.new ≡ stored out.old at (decimal x) }
{
    let n = digit_count(x);
    let end = at.checked_add(n)?;
    if out.len() < end {
        return None;
    }
    spell(x, &mut out[at..end]);
    Some(n)
}
