// The reader and the writer of messages, the writer of lines, and what the service does with a message and with a turn.
ghost use Rattle.promises.specs.Stated.{BodyGives, FrameGives, ReadGives, MessageGives, LineGives, OrderGives, ReplyGives, ServeGives, TurnGives};

use desk::Served;
use lines::Words;
use refusals::Refusal;
use replies::Replied;
use table::Table;
use turns::Turn;
use wire::reader::{Message, Request};

fn read_body(body: &[u8]) -> Result<Request, Refusal>
    ensures gives { BodyGives body.now result }
{
    wire::reader::read_body(body)
}

fn read_frame(msg: &[u8]) -> Result<Option<usize>, Refusal>
    ensures gives { FrameGives msg.now result }
{
    frames::read_frame(msg)
}

fn read_message(msg: &[u8]) -> Result<Option<Message>, Refusal>
    ensures gives { ReadGives msg.now result }
{
    wire::reader::read_message(msg)
}

fn write_message(body: &[u8], out: &mut [u8], place: usize) -> Result<usize, Refusal>
    ensures gives { MessageGives body.now out.old place result out.new }
{
    sending::write_message(body, out, place)
}

fn write_line(words: Words, out: &mut [u8], place: usize) -> Option<usize>
    ensures gives { LineGives words out.old place result out.new }
{
    lines::write_line(words, out, place)
}

fn write_order(numbers: &[u32], out: &mut [u8], place: usize) -> Option<usize>
    ensures gives { OrderGives numbers.now out.old place result out.new }
{
    lines::write_order(numbers, out, place)
}

fn reply(t: Table, body: &[u8]) -> Replied
    ensures gives { ReplyGives t body.now result }
{
    replies::reply(t, body)
}

fn serve(t: Table, body: &[u8], out: &mut [u8], place: usize) -> Served
    ensures gives { ServeGives t body.now out.old place result out.new }
{
    desk::serve(t, body, out, place)
}

fn take_turn(t: Table, input: &[u8], last: bool, out: &mut [u8]) -> Turn
    ensures gives { TurnGives t input.now last out.old result out.new }
{
    turns::take_turn(t, input, last, out)
}
