// May a number stand at a place of the order, behind those that stand before? What stands before is a word: bit i says that row i
// does. RULES, Orders.
ghost use Rattle.std.specs.Prelude.{◌≡◌, ◌≤◌, ◌<◌, ◌/◌, length};
ghost use Rattle.arrows.specs.Placed.{waits, may_stand};
ghost use Rattle.checker.specs.Places.{RowOf};

use arrows::goes_before;
use good::entries::number_at;
use words::has;

// Which row has the number?
pub(crate) fn row_of(rows: &[u32], n: u32) -> Option<usize>
    ensures answer { RowOf rows.now n result }
{
    for i in 0..rows.len() / 9 {
        if number_at(rows, i) == n {
            return Some(i);
        }
    }
    None
}

// Has row j an arrow to row i, without standing before?
fn holds_up(rows: &[u32], placed: u32, j: usize, i: usize) -> bool
    requires { j < 32 }
    ensures answer { result ≡ waits rows.now placed i j }
{
    !has(placed, j) && goes_before(rows, j, i)
}

// Does row i not stand before, while all its predecessors do?
pub(crate) fn may_stand(rows: &[u32], placed: u32, i: usize) -> bool
    requires { (length rows.now ≤ 288) × (i < length rows.now / 9) }
    ensures answer { result ≡ may_stand rows.now placed i }
{
    if has(placed, i) {
        return false;
    }
    for j in 0..rows.len() / 9 {
        if holds_up(rows, placed, j, i) {
            return false;
        }
    }
    true
}
