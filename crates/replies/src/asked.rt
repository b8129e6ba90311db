// What a body asks for, or refusal 10 of the reader where it is no message.
ghost use Rattle.std.specs.Prelude.{◌≡◌};
ghost use Rattle.wire.specs.Answers.{body_answer};
ghost use Rattle.wire.specs.Body.{message_of};
ghost use Rattle.replies.specs.Asked.{sort_of, asked_of};

use refusals::Refusal;
use wire::reader::Request;

#[derive(Drop)]
pub enum Asked {
    // one of the eight that change the table
    Call(Request),
    // a proposal of so many numbers
    Proposal(usize),
    Order,
}

fn sort(q: Request) -> Asked
    ensures answer { result ≡ sort_of q }
{
    match q {
        Request::Proposing { numbers } => Asked::Proposal(numbers),
        Request::Ordering => Asked::Order,
        _ => Asked::Call(q),
    }
}

pub(crate) fn ask(body: &[u8]) -> Result<Asked, Refusal>
    ensures answer { result ≡ asked_of (body_answer (message_of body.now)) }
{
    let q = wire::reader::read_body(body)?;
    Ok(sort(q))
}
