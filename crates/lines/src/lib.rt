// The service's answers as lines of text, written into a lent buffer. Rests on `text` and on specs/Line.antt.
#![tactic(auto)]

ghost use Rattle.std.specs.Prelude.{◌≡◌};
ghost use Rattle.endian.specs.Laid.{stored};
ghost use Rattle.decimal.specs.Written.{written_count};
ghost use Rattle.refusals.specs.Numbers.{number_of};
ghost use Rattle.lines.specs.declared.Words.{Words};
ghost use Rattle.lines.specs.Line.{line_bytes, ok_line, Line.say, Line.order};

use refusals::Refusal;
use text::put_text;

// Every answer but the order.
#[derive(Clone, Copy, PartialEq, Eq)]
pub enum Words {
    Ok,
    // a transaction's number
    Begin(u32),
    Commit(u32),
    Cycle(u32),
    // how many were forgotten
    Swept(u32),
    Good,
    Bad,
    // the refusal's number: a line may tell any, so that what is said of lines holds of each
    Refused(u32),
}

impl From<Refusal> for Words {
    ghost from_gives = { λ r w. w ≡ Words.Refused (number_of r) };

    fn from(r: Refusal) -> Words {
        Words::Refused(u32::from(r))
    }
}

// Most answers are this one, so its three bytes are stored at once.
#[tactic(auto, using(decimal::proofs::WrittenLaws::laid_of_part), unfolding(text::specs::Text::spaced))]
fn put_ok(out: &mut [u8], place: usize) -> Option<usize>
    ensures answer { result ≡ written_count out.old place (line_bytes ok_line) }
    ensures buffer { out.new ≡ stored out.old place (line_bytes ok_line) }
{
    let line = b"ok\n";
    let end = place.checked_add(line.len())?;
    if out.len() < end {
        return None;
    }
    out[place..end].copy_from_slice(line);
    Some(line.len())
}

// Writes the answer's line from the place on and says how many bytes it has. Without room for all of it nothing is written.
pub fn write_line(words: Words, out: &mut [u8], place: usize) -> Option<usize>
    ensures answer { result ≡ written_count out.old place (line_bytes (say words)) }
    ensures buffer { out.new ≡ stored out.old place (line_bytes (say words)) }
{
    match words {
        Words::Ok => put_ok(out, place),
        Words::Begin(n) => put_text(b"begin", &[n], out, place),
        Words::Commit(n) => put_text(b"commit", &[n], out, place),
        Words::Cycle(n) => put_text(b"cycle", &[n], out, place),
        Words::Swept(c) => put_text(b"swept", &[c], out, place),
        Words::Good => put_text(b"good", &[], out, place),
        Words::Bad => put_text(b"bad", &[], out, place),
        Words::Refused(r) => put_text(b"refused", &[r], out, place),
    }
}

// The same for the order of the numbers.
pub fn write_order(numbers: &[u32], out: &mut [u8], place: usize) -> Option<usize>
    ensures answer { result ≡ written_count out.old place (line_bytes (order numbers.now)) }
    ensures buffer { out.new ≡ stored out.old place (line_bytes (order numbers.now)) }
{
    put_text(b"order", numbers, out, place)
}
