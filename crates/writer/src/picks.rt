// The order itself, picked into an array: at each place the smallest number that may stand there. Rests on specs/Next.antt.
ghost use Rattle.std.specs.Prelude.{◌≡◌, not, ◌&&◌, ◌<◌, ◌≤◌, ◌/◌, eqb, length, get_or};
ghost use Rattle.std.specs.Int.Bits.{bit_and};
ghost use Rattle.words.specs.Word.{has as has_of, others};
ghost use Rattle.orders.specs.Good.{GoodRows};
ghost use Rattle.arrows.specs.Preds.{preds_of};
ghost use Rattle.writer.specs.Next.{number_at, lower, next_of};
ghost use Rattle.writer.specs.Picks.{Picked};

use arrows::preds::predecessors;
use good::entries::number_at;
use words::{has, with};

// May row j stand at the next place: is it not placed, while all its predecessors are?
fn may_stand(preds: &[u32; 32], placed: u32, j: usize) -> bool
    requires { j < 32 }
    ensures answer { result ≡ not (has_of placed j) && eqb (bit_and (get_or preds.now j 0) (others placed)) 0 }
{
    !has(placed, j) && preds[j] & !placed == 0
}

// Of the best row so far and row j the one with the smaller number.
fn lower(rows: &[u32], best: Option<usize>, j: usize) -> Option<usize>
    ensures answer { result ≡ lower (number_at rows.now) best j }
{
    match best {
        None => Some(j),
        Some(b) => {
            if number_at(rows, j) < number_at(rows, b) {
                Some(j)
            } else {
                Some(b)
            }
        }
    }
}

// The row with the smallest number that may stand at the next place.
fn next_row(rows: &[u32], preds: &[u32; 32], placed: u32) -> Option<usize>
    requires { (length rows.now ≤ 288) × (preds.now ≡ preds_of rows.now) }
    ensures answer { result ≡ next_of rows.now placed }
{
    let mut best = None;
    for j in 0..rows.len() / 9 {
        if may_stand(preds, placed, j) {
            best = lower(rows, best, j);
        }
    }
    best
}

// The numbers in their order, and zeros behind them. There is none where no row may stand at the next place: then those left make a
// cycle.
pub(crate) fn pick(rows: &[u32]) -> Option<[u32; 32]>
    requires { GoodRows rows.now }
    ensures answer { Picked rows.now result }
{
    let preds = predecessors(rows);
    let mut numbers = [0; 32];
    let mut placed = 0;
    for k in 0..rows.len() / 9 {
        let j = next_row(rows, &preds, placed)?;
        numbers[k] = number_at(rows, j);
        placed = with(placed, j);
    }
    Some(numbers)
}
