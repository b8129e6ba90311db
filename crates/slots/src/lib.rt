// Where a number and a free slot are. RULES, The table.
#![tactic(auto)]

ghost use Rattle.std.specs.Prelude.{◌≡◌, ◌<◌, position, IfSome, IfOk};
ghost use Rattle.method.specs.Records.{is_free};
ghost use Rattle.method.specs.Slots.{has_number};
ghost use Rattle.slots.specs.Gate.{gate_of};

use method::{Number, Row, State, Table};
use refusals::Refusal;

fn has_number(r: &Row, n: Number) -> bool
    ensures answer { result ≡ has_number n.0 r.now }
{
    r.state != State::Free && r.number == n
}

#[inline(never)]
fn slot_of(t: &Table, n: Number) -> Option<usize>
    ensures answer { result ≡ position (has_number n.0) t.now.rows }
    ensures inside { IfSome result (λ i. i < 32) }
{
    t.rows.iter().position(|r| has_number(r, n))
}

// The slot of a number: the first checks of every call that names one.
pub fn enter(t: &Table, n: Number) -> Result<usize, Refusal>
    ensures answer { result ≡ gate_of t.now n.0 }
    ensures inside { IfOk result (λ i. i < 32) }
{
    if t.sites == 0 {
        return Err(Refusal::NotOpen);
    }
    slot_of(t, n).ok_or(Refusal::Unknown)
}

// A function of its own in the program too: where the compiler takes the search into its one caller, it reads 32 places one by one there,
// and then copies whole tables in as many pieces (PERFORMANCE, What was had for free).
#[inline(never)]
pub fn lowest_free(t: &Table) -> Option<usize>
    ensures answer { result ≡ position (λ r. is_free r.state) t.now.rows }
    ensures inside { IfSome result (λ i. i < 32) }
{
    t.rows.iter().position(|r| r.state == State::Free)
}
