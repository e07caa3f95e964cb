// Document 02, W13: a message goes through a sender and a receiver that an undisturbed line joins, so that the theorem
// on both is one about their code.
#![tactic(auto)]

ghost use Rattle.std.specs.Prelude.{◌≡◌};
ghost use Rattle.transport.specs.Sending.{start, flow};
ghost use Rattle.transport.specs.Exchange.{on_line, asked, told, turn, begun_by, ended_at, looped_back};

use transport::{CanFrame, FlowAnswer, FlowControl, Line, Receiver, Sender, Stage, TakeAnswer};

// The sender is asked for the next frame, which goes on the line; that none is due is a failure.
fn ask(line: &mut Line, message: &[u8])
    ensures { line.new ≡ asked message.now line.old.sender line.old.receiver }
{
    line.stage = match sending::next(&mut line.sender, message) {
        Some(frame) => Stage::Coming(frame),
        None => Stage::Failed,
    };
}

// Flow control that lets the sender go on, with the receiver's separation time, leads to the next frame.
fn tell(line: &mut Line, message: &[u8], separation: u8, frame: CanFrame)
    ensures { line.new ≡ told separation message.now (flow line.old.sender frame) line.old.receiver }
{
    if sending::flow(&mut line.sender, frame) == Ok(FlowAnswer::Go(separation)) {
        ask(line, message);
    } else {
        line.stage = Stage::Failed;
    }
}

// The receiver takes the frame on the line, and what it asks for is done.
fn turn(line: &mut Line, message: &[u8], room: &mut [u8], flow: FlowControl)
    ensures { on_line line.new room.new
        ≡ turn flow.block flow.separation 0 message.now (on_line line.old room.old) }
{
    let Stage::Coming(frame) = line.stage else {
        return;
    };
    match receiving::take(&mut line.receiver, room, flow, frame) {
        Ok(TakeAnswer::Going) => ask(line, message),
        Ok(TakeAnswer::Control(control)) => tell(line, message, flow.separation, control),
        Ok(TakeAnswer::Complete(size)) => line.stage = Stage::Arrived(size),
        Err(_) => line.stage = Stage::Failed,
    }
}

// The sender starts, and the receiver is idle.
fn begun(message: &[u8]) -> Line
    ensures { result ≡ begun_by (start message.now) }
{
    let (stage, sender) = match sending::start(message) {
        Ok((frame, sender)) => (Stage::Coming(frame), sender),
        Err(_) => (Stage::Failed, Sender::Idle),
    };
    Line {
        sender,
        receiver: Receiver::Idle,
        stage,
    }
}

// "What a receiver puts together from an undisturbed sender is the message sent, for every length 1 to 4,095 that its
// room holds and every block size."
pub fn loop_back(message: &[u8], room: &mut [u8], flow: FlowControl) -> Stage
    ensures { ended_at result room.new ≡ looped_back message.now room.old }
{
    let mut line = begun(message);
    let frames = 1 + message.len() / 7;
    for _ in 0..frames {
        turn(&mut line, message, room, flow);
    }
    line.stage
}
