// Frames: from bytes to the body that stands in front of them. Rests on specs/Frame.antt.
#![tactic(auto)]

ghost use Rattle.std.specs.Prelude.{◌≡◌};
ghost use Rattle.frames.specs.Frame.{next_frame};
ghost use Rattle.frames.specs.Answer.{frame_answer};

use refusals::Refusal;

// Where the message in front of the bytes at hand ends: its body is `&msg[3..end]`. None where it is not yet whole.
#[tactic(auto, unfolding(crate::specs::Frame::next_frame))]
pub fn read_frame(msg: &[u8]) -> Result<Option<usize>, Refusal>
    ensures { result ≡ frame_answer (next_frame msg.now) }
{
    let Some(version) = msg.first() else {
        return Ok(None);
    };
    if *version != 1 {
        return Err(Refusal::BadFrame);
    }
    if msg.len() < 3 {
        return Ok(None);
    }
    let len = usize::from(endian::get16(msg, 1));
    if 160 < len {
        return Err(Refusal::BadFrame);
    }
    if msg.len() < 3 + len {
        return Ok(None);
    }
    Ok(Some(3 + len))
}
