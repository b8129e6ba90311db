// The two walks of a decision over a transaction's sites: are all of them prepared, and where does its commit raise the highest
// tickets? RULES, The table.
#![tactic(auto)]

ghost use Rattle.std.specs.Prelude.{◌≡◌, not, length};
ghost use Rattle.graph.specs.Lists.{keep};
ghost use Rattle.method.specs.Records.{is_prepared, part_at};
ghost use Rattle.sites.specs.Sites.{sites_of};
ghost use Rattle.method.specs.Conditions.{not_prepared};
ghost use Rattle.method.specs.Effects.{raised as raisedTickets};

use method::{Row, SITES, Stage, State, Ticket};

// How many of its sites are prepared.
#[tactic(auto, using(sites::proofs::SitesLaws::first_lt))]
fn prepared_sites(row: &Row) -> usize
    ensures answer { result ≡ length (keep (λ s. is_prepared (part_at row.now s).stage) (sites_of row.now.sites)) }
{
    sites::each(row.sites)
        .filter(|s| row.parts[*s].stage == Stage::Prepared)
        .count()
}

// Active, and as many sites prepared as it uses.
pub fn is_prepared(row: &Row) -> bool
    ensures answer { result ≡ not (not_prepared row.now) }
{
    row.state == State::Active && prepared_sites(row) == sites::used(row.sites) as usize
}

// The highest tickets, raised at the row's sites to its own.
#[tactic(auto, using(sites::proofs::SitesLaws::first_lt), unfolding(method::specs::Effects::raised))]
pub fn raised(mut high: [Ticket; SITES], row: &Row) -> [Ticket; SITES]
    ensures answer { result ≡ raisedTickets row.now (sites_of row.now.sites) high }
{
    for s in sites::each(row.sites) {
        high[s] = high[s].max(row.parts[s].ticket);
    }
    high
}
