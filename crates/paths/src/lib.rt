// Cycles and paths among 32 slots of eight tickets, 0 for none. RULES, Graph and decision; Forgetting. Inside, paths are found by
// Warshall's steps over a square of yes-no entries; the contracts speak of paths of arrows alone (specs/Paths.antt), so that no
// caller depends on the square.
#![tactic(auto)]

ghost use Rattle.std.specs.Prelude.{◌≡◌};
ghost use Rattle.std.specs.List.{list_any, range_with_len};
ghost use Rattle.paths.specs.Paths.{TellsCycle, TellsReached};
ghost use Rattle.paths.specs.Entries.{entry};

use closure::{joined, paths};

mod arrows;
mod closure;

// Has some slot a yes with itself?
fn has_loop(square: &[[bool; 32]; 32]) -> bool
    ensures answer { result ≡ list_any (λ i. entry square.now i i) (range_with_len 0 32) }
{
    (0..32).any(|i| square[i][i])
}

// Do the arrows among the slots make a cycle, of two or of any number?
pub fn has_cycle(tickets: &[[u32; 8]; 32]) -> bool
    ensures answer { TellsCycle tickets.now result }
{
    has_loop(&paths(tickets))
}

// Which slots are marked, or have a path of arrows from one that is?
pub fn reached(tickets: &[[u32; 8]; 32], marks: [bool; 32]) -> [bool; 32]
    ensures answer { TellsReached tickets.now marks result }
{
    let square = paths(tickets);
    let mut found = marks;
    for (i, row) in square.iter().enumerate() {
        if marks[i] {
            found = joined(&found, row);
        }
    }
    found
}
