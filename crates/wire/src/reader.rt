// From bytes to messages. The lists of an opening and of a proposal stay in the bytes; a request has only their count.
ghost use Rattle.std.specs.Prelude.{◌≡◌, length, Some};
ghost use Rattle.frames.specs.Frame.{next_frame};
ghost use Rattle.kinds.specs.Kinds.{code_of, entries_of};
ghost use Rattle.wire.specs.Body.{message_at, message_of};
ghost use Rattle.wire.specs.Answers.{request_of, body_answer, read_answer};

use kinds::Kind;
use refusals::Refusal;

// A message without its list: specs/Answers.antt says how it and the body make up the message.
#[derive(Drop)]
pub enum Request {
    Opening { first: u32, floors: usize },
    Beginning { sites: u8 },
    Ticketing { number: u32, site: u8, ticket: u32 },
    Preparing { number: u32, site: u8 },
    Aborting { number: u32 },
    Deciding { number: u32 },
    Forgetting { number: u32 },
    Sweeping,
    Proposing { numbers: usize },
    Ordering,
}

// The request of a kind, from the fields where they stand in the bodies of that kind.
#[tactic(auto, using(crate::proofs::AnswerLaws::floors_counted, crate::proofs::AnswerLaws::numbers_counted), unfolding(crate::specs::Body::message_at))]
fn request_at(kind: Kind, n: usize, body: &[u8]) -> Request
    requires { entries_of (code_of kind) (length body.now) ≡ Some n }
    ensures { result ≡ request_of (message_at (code_of kind) body.now) }
{
    let number = endian::get32(body, 1);
    let site = endian::get8(body, 5);
    match kind {
        Kind::Open => Request::Opening {
            first: number,
            floors: n,
        },
        Kind::Begin => Request::Beginning {
            sites: endian::get8(body, 1),
        },
        Kind::Ticket => Request::Ticketing {
            number,
            site,
            ticket: endian::get32(body, 6),
        },
        Kind::Prepared => Request::Preparing { number, site },
        Kind::Abort => Request::Aborting { number },
        Kind::Decide => Request::Deciding { number },
        Kind::Forget => Request::Forgetting { number },
        Kind::Sweep => Request::Sweeping,
        Kind::Propose => Request::Proposing { numbers: n },
        Kind::Order => Request::Ordering,
    }
}

#[tactic(auto, unfolding(kinds::specs::Kinds::entries_of))]
pub fn read_body(body: &[u8]) -> Result<Request, Refusal>
    ensures { result ≡ body_answer (message_of body.now) }
{
    // an empty body reads as kind 0, and no kind has length 0
    let kind = Kind::try_from(endian::get8(body, 0))?;
    let n = kind.entries(body.len()).ok_or(Refusal::BadBody)?;
    Ok(request_at(kind, n, body))
}

// The first message of the bytes at hand, and where it ends: after a body that is refused reading goes on there too.
#[derive(Drop)]
pub struct Message {
    pub request: Result<Request, Refusal>,
    pub end: usize,
}

// Frame and body in one. None where the message is not yet whole.
#[tactic(auto, using(crate::proofs::AnswerLaws::end_within, crate::proofs::AnswerLaws::end_read, crate::proofs::AnswerLaws::not_yet_read))]
pub fn read_message(msg: &[u8]) -> Result<Option<Message>, Refusal>
    ensures { result ≡ read_answer (next_frame msg.now) }
{
    let Some(end) = frames::read_frame(msg)? else {
        return Ok(None);
    };
    let request = read_body(&msg[3..end]);
    Ok(Some(Message { request, end }))
}
