// The square closed over paths: Warshall's steps, one for each slot that holds a ticket, a whole row at a time.
ghost use Rattle.std.specs.Prelude.{◌≡◌, false, ◌||◌, ◌<◌, length, get_or};
ghost use Rattle.paths.specs.Entries.{RowIs, SquareIs, over, PathSquare};

use crate::arrows::square_of;
use std::array;

// Yes where either row has one. There is no branch, so that the compiler can take many entries at once.
pub(crate) fn joined(a: &[bool; 32], b: &[bool; 32]) -> [bool; 32]
    ensures size { length result ≡ 32 }
    ensures each { RowIs (λ j. get_or a.now j false || get_or b.now j false) result }
{
    array::from_fn(|j| a[j] | b[j])
}

// Step k: every row with a yes at k gets what row k has. The step leaves row k as it is, so one copy serves all rows.
pub(crate) fn step_over(square: &mut [[bool; 32]; 32], k: usize)
    requires { k < 32 }
    ensures square { SquareIs (over square.old k) square.new }
{
    let next = square[k];
    for row in square.iter_mut() {
        if row[k] {
            *row = joined(row, &next);
        }
    }
}

// Which slot has a path to which. A slot without a ticket has no arrows, so its step would change nothing.
pub(crate) fn paths(tickets: &[[u32; 8]; 32]) -> [[bool; 32]; 32]
    ensures answer { PathSquare tickets.now result }
{
    let mut square = square_of(tickets);
    for (k, own) in tickets.iter().enumerate() {
        if *own != [0; 8] {
            step_over(&mut square, k);
        }
    }
    square
}
