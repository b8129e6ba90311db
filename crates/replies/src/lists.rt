// The two requests whose lists stay in the body: an opening and a proposal.
ghost use Rattle.std.specs.Prelude.{◌≡◌, ◌≤◌, length, drop};
ghost use Rattle.endian.specs.Bytes.{words as words_of};
ghost use Rattle.method.specs.Calls.Call.{open_with};
ghost use Rattle.method.specs.Slots.{kept_flat};
ghost use Rattle.table.specs.Shut.{answer_to, table_after};
ghost use Rattle.queries.specs.Queries.{proposal_line, if_open};
ghost use Rattle.queries.specs.Said.{spoken_of};

use method::{Answered, Number};
use queries::Spoken;
use table::Table;

// `n` floors stand in the body from byte 5 on.
pub(crate) fn open(t: Table, first: u32, n: usize, body: &[u8]) -> Answered<Table>
    requires { (5 ≤ length body.now) × (length (words_of (drop 5 body.now)) ≡ n) × (n ≤ 38) }
    ensures answer { result.answer ≡ answer_to t (open_with first (words_of (drop 5 body.now))) }
    ensures table { result.table ≡ table_after t (open_with first (words_of (drop 5 body.now))) }
{
    let mut floors: [u32; 38] = [0; 38];
    endian::get_words(&body[5..], &mut floors);
    let number = Number(first);
    lent::lend_open_with(t, number, &floors[..n])
}

// `n` numbers stand in the body from byte 1 on.
pub(crate) fn propose(t: &Table, n: usize, body: &[u8]) -> Spoken
    requires { (1 ≤ length body.now) × (length (words_of (drop 1 body.now)) ≡ n) × (n ≤ 39) }
    ensures answer { result ≡ spoken_of (if_open t.now.held (proposal_line (kept_flat t.now.held) (words_of (drop 1 body.now)))) }
{
    let mut numbers: [u32; 39] = [0; 39];
    endian::get_words(&body[1..], &mut numbers);
    queries::judge(t, &numbers[..n])
}
