// Stage against report: where a report leads a site of a transaction. RULES, The table.
#![tactic(auto)]

ghost use Rattle.std.specs.Prelude.{◌≡◌, ◌<◌, OnOk};
ghost use Rattle.method.specs.Stages.{step_of};
ghost use Rattle.stages.specs.Place.{place_of};

use method::{Report, Row, Stage};
use refusals::Refusal;

// Stage against report: the next stage, or none.
const STEPS: [[Option<Stage>; 2]; 3] = [
    [Some(Stage::Ticketed), None],
    [None, Some(Stage::Prepared)],
    [None, None],
];

fn next_step(g: Stage, p: Report) -> Option<Stage>
    ensures answer { result ≡ step_of g p }
{
    STEPS[g as usize][p as usize]
}

// The stage that a report leads a site to.
pub fn next_place(r: &Row, s: u8, p: Report) -> Result<Stage, Refusal>
    ensures answer { result ≡ place_of r.now s p }
    ensures inside { OnOk result (s < 8) }
{
    if !sites::has_site(r.sites, s) {
        return Err(Refusal::BadSite);
    }
    next_step(r.parts[s as usize].stage, p).ok_or(Refusal::OutOfTurn)
}
