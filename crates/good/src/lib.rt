// Is a ticket table good? Its rows lie flat, nine entries each: the number, then eight tickets. RULES, Orders.
#![tactic(auto)]

ghost use Rattle.std.specs.Prelude.{◌≡◌, ◌+◌, ◌-◌, ◌/◌, ◌<◌, length};
ghost use Rattle.graph.specs.Lists.{any_of};
ghost use Rattle.orders.specs.Arrow.{any_site};
ghost use Rattle.orders.specs.Entries.{entry_at, entries_from};
ghost use Rattle.orders.specs.Good.{clash, goodb, sameb};

use entries::{number_at, tickets_at};

pub mod entries;

// Is there a site at which both hold the same ticket? All eight are looked at, so that the loop has no branch.
fn shares_ticket(a: &[u32; 8], b: &[u32; 8]) -> bool
    ensures answer { result ≡ any_site sameb a.now b.now }
{
    let mut found = false;
    for s in 0..8 {
        found |= (0 < a[s]) & (a[s] == b[s]);
    }
    found
}

// Has row j this number, or one of these tickets at its site?
fn clashes(rows: &[u32], number: u32, own: &[u32; 8], j: usize) -> bool
    requires { j < length rows.now / 9 }
    ensures answer { result ≡ clash (record { number = number; tickets = own.now }) (entry_at rows.now j) }
{
    number == number_at(rows, j) || shares_ticket(own, &tickets_at(rows, j))
}

// Does row i clash with one that stands behind it? It is read once, and then held against each.
fn clashes_behind(rows: &[u32], i: usize) -> bool
    requires { i < length rows.now / 9 }
    ensures answer { result ≡ any_of (clash (entry_at rows.now i)) (entries_from rows.now (i + 1) (length rows.now / 9 - (i + 1))) }
{
    let number = number_at(rows, i);
    let own = tickets_at(rows, i);
    for j in i + 1..rows.len() / 9 {
        if clashes(rows, number, &own, j) {
            return true;
        }
    }
    false
}

// Whole rows, at most 32, no number 0, and no two rows with the same number or with the same ticket at a site.
pub fn is_good(rows: &[u32]) -> bool
    ensures answer { result ≡ goodb rows.now }
{
    if rows.len() % 9 != 0 {
        return false;
    }
    if 288 < rows.len() {
        return false;
    }
    for i in 0..rows.len() / 9 {
        if number_at(rows, i) == 0 {
            return false;
        }
        if clashes_behind(rows, i) {
            return false;
        }
    }
    true
}
