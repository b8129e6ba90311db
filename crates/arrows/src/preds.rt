// The predecessors of every row, each row's as a word: bit j says that row j has an arrow to it. Rests on specs/Preds.antt.
ghost use Rattle.std.specs.Prelude.{◌≡◌, ◌+◌, ◌<◌, ◌/◌, length};
ghost use Rattle.orders.specs.Entries.{entry_at};
ghost use Rattle.arrows.specs.Preds.{preds_of, Joined};

use orders::goes_before;
use words::with;

// The tickets of a whole row, where they stand: the compiler then compares them there, and copies none.
fn tickets(rows: &[u32], i: usize) -> &[u32; 8]
    requires { i < length rows.now / 9 }
    ensures answer { result.now ≡ (entry_at rows.now i).tickets }
{
    let k = 9 * i + 1;
    <&[u32; 8]>::try_from(&rows[k..k + 8]).unwrap()
}

// Row i and all rows before it. Each pair is looked at once, for both directions.
fn join(rows: &[u32], preds: &mut [u32; 32], i: usize)
    requires bounds { (i < length rows.now / 9) × (i < 32) }
    requires joined { Joined rows.now i preds.old }
    ensures joined { Joined rows.now (i + 1) preds.new }
{
    let own = tickets(rows, i);
    let mut mine = 0;
    for j in 0..i {
        let other = tickets(rows, j);
        if goes_before(other, own) {
            mine = with(mine, j);
        }
        if goes_before(own, other) {
            preds[j] = with(preds[j], i);
        }
    }
    preds[i] = mine;
}

// For each row the word of its predecessors. A word has 32 bits, so rows from 32 on have no word and stand in none.
pub fn predecessors(rows: &[u32]) -> [u32; 32]
    ensures answer { result ≡ preds_of rows.now }
{
    let n = (rows.len() / 9).min(32);
    let mut preds = [0; 32];
    for i in 0..n {
        join(rows, &mut preds, i);
    }
    preds
}
