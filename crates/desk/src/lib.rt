// The desk: one message's body on the table, to the new table and its line as text. RULES, The service.
#![tactic(auto)]

ghost use Rattle.std.specs.Prelude.{◌≡◌};
ghost use Rattle.desk.specs.Served.{served_table, served_count, served_out};
ghost use Rattle.table.specs.Shut.{shut_table};

use replies::Replied;
use table::Table;

mod said;

// The table after the message, and how many bytes its line has; None where nothing was done.
#[derive(Drop)]
pub struct Served {
    pub table: Table,
    pub count: Option<usize>,
}

// Answers a body with one line from the place on. Where the longest line would not fit nothing happens, and the count is None.
pub fn serve(t: Table, body: &[u8], out: &mut [u8], place: usize) -> Served
    ensures table { result.table ≡ shut_table (served_table t.held body.now out.old place) }
    ensures count { result.count ≡ served_count t.held body.now out.old place }
    ensures buffer { out.new ≡ served_out t.held body.now out.old place }
{
    if out.len().saturating_sub(place) < 358 {
        return Served {
            table: t,
            count: None,
        };
    }
    let Replied { table, spoken } = replies::reply(t, body);
    let n = said::say(spoken.said, &spoken.numbers, out, place);
    Served {
        table,
        count: Some(n),
    }
}
