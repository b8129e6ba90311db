// The tickets of the kept rows aligned with the slots, for the graph. RULES, Graph and decision.
ghost use Rattle.std.specs.Prelude.{◌≡◌, ◌<◌};
ghost use Rattle.kept.specs.Aligned.{Aligned, aligned_row};

use method::{State, Table};
use std::array;

// Eight tickets a slot, zeros for a slot that takes no part: the committed rows do, and the row in the slot `chosen` does.
pub fn tickets(t: &Table, chosen: Option<usize>) -> [[u32; 8]; 32]
    ensures answer { Aligned t.now chosen result }
{
    array::from_fn(
        |i|
            requires { i < 32 }
            ensures { result ≡ aligned_row t.entry.now chosen i }
        {
            let row = &t.rows[i];
            if chosen == Some(i) || row.state == State::Committed {
                records::tickets_of(row)
            } else {
                [0; 8]
            }
        },
    )
}
