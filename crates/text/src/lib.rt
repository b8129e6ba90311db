// A word, numbers each behind a space, and a newline, written into a lent buffer. Rests on `endian`, `decimal` and on specs/Text.antt.
#![tactic(auto)]

ghost use Rattle.std.specs.Prelude.{◌≡◌, [], ◌∷◌, ◌+◌, ◌-◌, ◌≤◌, length};
ghost use Rattle.endian.specs.Laid.{laid, stored};
ghost use Rattle.decimal.specs.Written.{written_count};
ghost use Rattle.text.specs.Text.{spaced, text_of};

// What is left of `room` bytes behind the numbers, at least nothing. The sum of the lengths might wrap.
fn left_behind(numbers: &[u32], room: usize) -> usize
    ensures { result ≡ room - length (spaced numbers.now) }
{
    numbers.iter().fold(
        room,
        |left, x| left.saturating_sub(1 + decimal::digit_count(*x)),
    )
}

// A space and the number; answers where it ends.
fn put_spaced(x: u32, out: &mut [u8], at: usize) -> usize
    requires { at + length (spaced (x ∷ [])) ≤ length out.old }
    ensures answer { result ≡ at + length (spaced (x ∷ [])) }
    ensures buffer { out.new ≡ laid out.old at (spaced (x ∷ [])) }
{
    out[at] = b' ';
    let digits = decimal::put_decimal(x, out, at + 1).unwrap();
    at + 1 + digits
}

// The numbers, each behind a space; answers where they end.
fn put_numbers(numbers: &[u32], out: &mut [u8], place: usize) -> usize
    requires { place + length (spaced numbers.now) ≤ length out.old }
    ensures answer { result ≡ place + length (spaced numbers.now) }
    ensures buffer { out.new ≡ laid out.old place (spaced numbers.now) }
{
    let mut at = place;
    for x in numbers {
        at = put_spaced(*x, out, at);
    }
    at
}

// Writes the word, the numbers and a newline from the place on and says how many bytes they are. Without room for all of it nothing is
// written. The newline tells a line that fits from one that is a byte too long: behind the numbers something must be left.
pub fn put_text(word: &[u8], numbers: &[u32], out: &mut [u8], place: usize) -> Option<usize>
    ensures answer { result ≡ written_count out.old place (text_of word.now numbers.now) }
    ensures buffer { out.new ≡ stored out.old place (text_of word.now numbers.now) }
{
    let room = out.len().saturating_sub(place).saturating_sub(word.len());
    if left_behind(numbers, room) == 0 {
        return None;
    }
    let from = place + word.len();
    out[place..from].copy_from_slice(word);
    let end = put_numbers(numbers, out, from);
    out[end] = b'\n';
    Some(end + 1 - place)
}
