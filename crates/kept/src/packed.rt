// The kept rows packed one behind the other by slot, as a ticket table for orders. RULES, Orders.
ghost use Rattle.std.specs.Prelude.{◌≡◌, ◌∷◌, ◌+◌, ◌*◌, ◌≤◌, length, take};
ghost use Rattle.endian.specs.Laid.{laid};
ghost use Rattle.method.specs.Records.{tickets_of};
ghost use Rattle.method.specs.Slots.{kept, kept_flat};
ghost use Rattle.kept.specs.Packed.{flat, packed_of, packed_rows};

use method::{Row, SLOTS, State, Table};

// How many kept rows there are, and nine entries of each; zeros behind them.
#[derive(Drop)]
pub struct Kept {
    pub count: usize,
    pub rows: [u32; 288],
}

// Lays one row's nine entries from the place on. A row has eight sites by its type; said here, for callers.
fn lay_entries(flat: &mut [u32; 288], at: usize, row: &Row)
    requires { at + 9 ≤ 288 }
    ensures flat { flat.new ≡ laid flat.old at (row.now.number.0 ∷ tickets_of row.now) }
    ensures eight { length (tickets_of row.now) ≡ 8 }
{
    flat[at] = row.number.0;
    flat[at + 1..at + 9].copy_from_slice(&records::tickets_of(row));
}

fn packed(rows: &[Row; SLOTS]) -> Kept
    ensures answer { result ≡ packed_rows rows.now }
    ensures whole { length (flat rows.now) ≡ 9 * result.count }
    ensures few { result.count ≤ 32 }
{
    let mut flat = [0; 288];
    let mut count = 0;
    for row in rows {
        if row.state == State::Committed {
            lay_entries(&mut flat, 9 * count, row);
            count += 1;
        }
    }
    Kept { count, rows: flat }
}

// The kept rows, nine entries each: the number, and the ticket at each site. The clauses behind the first follow from it; they are said for
// callers.
#[tactic(auto, unfolding(method::specs::Slots::kept))]
pub fn rows(t: &Table) -> Kept
    ensures answer { result ≡ packed_of t.now }
    ensures items { take (9 * result.count) result.rows ≡ kept_flat t.now }
    ensures count { result.count ≡ length (kept t.now) }
    ensures whole { length (kept_flat t.now) ≡ 9 * result.count }
    ensures few { result.count ≤ 32 }
{
    packed(&t.rows)
}
