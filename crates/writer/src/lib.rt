// The writer of an order: at each place the smallest number that may stand there. RULES, Orders.
#![tactic(auto)]

ghost use Rattle.std.specs.Prelude.{◌≡◌, ◌+◌, ◌≤◌, leb, length};
ghost use Rattle.endian.specs.Laid.{laid};
ghost use Rattle.orders.specs.Reply.{write_reply};
ghost use Rattle.orders.specs.Write.{write_result};

use good::is_good;
use picks::pick;
use refusals::Refusal;

mod picks;

// Lays the numbers over the front of what it is lent.
fn lay(out: &mut [u32], numbers: &[u32])
    requires { length numbers.now ≤ length out.old }
    ensures buffer { out.new ≡ laid out.old 0 numbers.now }
{
    out[..numbers.len()].copy_from_slice(numbers);
}

// Are there n entries from the place on, in a buffer of that length? place + n might wrap.
fn has_room(len: usize, place: usize, n: usize) -> bool
    ensures answer { result ≡ leb (place + n) len }
{
    place <= len && n <= len - place
}

// Writes an order of the rows from the place on, and says how many numbers it wrote; or refuses, and leaves the buffer as it is.
pub fn write(rows: &[u32], place: usize, out: &mut [u32]) -> Result<usize, Refusal>
    ensures answer { write_reply result ≡ (write_result rows.now place out.old).0 }
    ensures buffer { out.new ≡ (write_result rows.now place out.old).1 }
{
    if !is_good(rows) {
        return Err(Refusal::BadRows);
    }
    let n = rows.len() / 9;
    if !has_room(out.len(), place, n) {
        return Err(Refusal::NoRoom);
    }
    // picked apart from the buffer, which a refusal leaves as it is
    let numbers = pick(rows).ok_or(Refusal::NoOrder)?;
    lay(&mut out[place..], &numbers[..n]);
    Ok(n)
}
