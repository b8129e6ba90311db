// The arrows between the rows of a flat ticket table, nine entries a row. RULES, Orders.
#![tactic(auto)]

ghost use Rattle.std.specs.Prelude.{◌≡◌, ℕ, ◌≤◌, ◌/◌, length};
ghost use Rattle.orders.specs.Arrow.{ticket_at};
ghost use Rattle.orders.specs.Entries.{entry_at, entry_arrowb};

use good::entries::tickets_at;

pub mod preds;

// The tickets of row i, and of a row that the list ends in those that it has; zeros for the others.
#[inline(always)]
fn tickets_of(rows: &[u32], i: usize) -> [u32; 8]
    requires { i ≤ length rows.now / 9 }
    ensures answer { (s : ℕ) → ticket_at result s ≡ ticket_at (entry_at rows.now i).tickets s }
{
    if i < rows.len() / 9 {
        return tickets_at(rows, i);
    }
    let mut own = [0; 8];
    for s in 0..8 {
        own[s] = rows.get(9 * i + 1 + s).map_or(0, |ticket| *ticket);
    }
    own
}

// Has row a an arrow to row b? A row past the list holds no ticket, so that it has no arrows.
pub fn goes_before(rows: &[u32], a: usize, b: usize) -> bool
    ensures answer { result ≡ entry_arrowb (entry_at rows.now a) (entry_at rows.now b) }
{
    let n = rows.len() / 9;
    // past the list the place of a ticket might wrap
    if n < a {
        return false;
    }
    if n < b {
        return false;
    }
    orders::goes_before(&tickets_of(rows, a), &tickets_of(rows, b))
}
