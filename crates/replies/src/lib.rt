// One message's body on the table: the new table, and its line as a value. RULES, The service.
#![tactic(auto)]

ghost use Rattle.std.specs.Prelude.{◌≡◌};
ghost use Rattle.table.specs.Shut.{shut_table};
ghost use Rattle.queries.specs.Said.{spoken_of};
ghost use Rattle.replies.specs.Desk.{desk_body};

use asked::Asked;
use calls::{call, tell};
use method::Answered;
use queries::Spoken;
use table::Table;

mod asked;
mod calls;
mod lists;

// The table after the message, and what is said.
#[derive(Drop)]
pub struct Replied {
    pub table: Table,
    pub spoken: Spoken,
}

pub fn reply(t: Table, body: &[u8]) -> Replied
    ensures table { result.table ≡ shut_table (desk_body t.held body.now).0 }
    ensures spoken { result.spoken ≡ spoken_of (desk_body t.held body.now).1 }
{
    match asked::ask(body) {
        Ok(Asked::Call(q)) => tell(call(t, q, body)),
        Ok(Asked::Proposal(n)) => Replied {
            table: t,
            spoken: lists::propose(&t, n, body),
        },
        Ok(Asked::Order) => Replied {
            table: t,
            spoken: queries::give(&t),
        },
        Err(r) => tell(Answered {
            table: t,
            answer: Err(r),
        }),
    }
}
