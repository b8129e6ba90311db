// From a body to its message in a lent buffer. A refusal changes no byte.
#![tactic(auto)]

ghost use Rattle.std.specs.Prelude.{◌≡◌};
ghost use Rattle.sending.specs.Writing.{write_answer, written};

use refusals::Refusal;

// How many bytes the message has.
pub fn write_message(body: &[u8], out: &mut [u8], place: usize) -> Result<usize, Refusal>
    ensures answer { result ≡ write_answer body.now out.old place }
    ensures buffer { out.new ≡ written body.now out.old place }
{
    let n = body.len();
    if 160 < n {
        return Err(Refusal::BadFrame);
    }
    kinds::entries(endian::get8(body, 0), n).ok_or(Refusal::BadBody)?;
    let whole = n + 3;
    if out.len() < whole || out.len() - whole < place {
        return Err(Refusal::NoRoom);
    }
    let [high, low] = (n as u16).to_be_bytes();
    let header = [1, high, low];
    endian::put(out, place, &header);
    endian::put(out, place + 3, body);
    Ok(whole)
}
