// The eight requests that are calls: the table is lent to the call, and its answer is told.
ghost use Rattle.std.specs.Prelude.{◌≡◌, Ok};
ghost use Rattle.queries.specs.Said.{spoken_of};
ghost use Rattle.wire.specs.Body.{message_of};
ghost use Rattle.wire.specs.Answers.{body_answer};
ghost use Rattle.table.specs.Shut.{shut_table};
ghost use Rattle.replies.specs.declared.asked.Asked as sorts;
ghost use Rattle.replies.specs.Desk.{answer_words, answer_line, desk_body};
ghost use Rattle.replies.specs.Asked.{asked_of};

use crate::Replied;
use crate::lists::open;
use lines::Words;
use method::{Answer, Answered, Number, Ticket};
use queries::{Said, Spoken};
use refusals::Refusal;
use table::Table;
use wire::reader::Request;

// A call's answer, as words.
fn words_of(a: Result<Answer, Refusal>) -> Words
    ensures line { result ≡ answer_words a }
{
    match a {
        Ok(Answer::Done) => Words::Ok,
        Ok(Answer::Begun(n)) => Words::Begin(n.0),
        Ok(Answer::Commit(n)) => Words::Commit(n.0),
        Ok(Answer::Cycle(n)) => Words::Cycle(n.0),
        Ok(Answer::Swept(c)) => Words::Swept(c),
        Err(r) => Words::from(r),
    }
}

// The same with the table that the call left.
pub(crate) fn tell(a: Answered<Table>) -> Replied
    ensures table { result.table ≡ a.table }
    ensures spoken { result.spoken ≡ spoken_of (answer_line a.answer) }
{
    Replied {
        table: a.table,
        spoken: Spoken {
            said: Said::Words(words_of(a.answer)),
            numbers: [0; 32],
        },
    }
}

// The request was read off the body, which has an opening's floors.
pub(crate) fn call(t: Table, q: Request, body: &[u8]) -> Answered<Table>
    requires { asked_of (body_answer (message_of body.now)) ≡ Ok (sorts.Asked.Call q) }
    ensures table { result.table ≡ shut_table (desk_body t.held body.now).0 }
    ensures line { answer_line result.answer ≡ (desk_body t.held body.now).1 }
{
    match q {
        Request::Opening { first, floors } => open(t, first, floors, body),
        Request::Beginning { sites } => lent::lend_begin(t, sites),
        Request::Ticketing {
            number,
            site,
            ticket,
        } => lent::lend_report_ticket(t, Number(number), site, Ticket(ticket)),
        Request::Preparing { number, site } => lent::lend_report_prepared(t, Number(number), site),
        Request::Aborting { number } => lent::lend_abort(t, Number(number)),
        Request::Deciding { number } => lent::lend_decide(t, Number(number)),
        Request::Forgetting { number } => lent::lend_forget(t, Number(number)),
        Request::Sweeping => lent::lend_sweep(t),
        // shut out by the contract: these two are no calls
        Request::Proposing { numbers: _ } => lent::lend_sweep(t),
        Request::Ordering => lent::lend_sweep(t),
    }
}
