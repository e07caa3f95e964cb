// Document 02, W13, for a caller in C: a frame, a sender, a receiver and the answers as plain numbers and bytes, and
// the four calls over them.
#![tactic(auto)]

ghost use Rattle.std.specs.Prelude.{◌≡◌};
ghost use Rattle.transport.specs.Frames.{frame_of};
ghost use Rattle.can_panel.specs.CanPanel.{sender_of, receiver_of, frame_bytes, sender_bytes, receiver_bytes};
ghost use Rattle.can_panel.specs.CanPanel.{started_bytes, flowed_bytes, next_bytes, taken_bytes, with_room};
ghost use Rattle.can_panel.specs.CanPanel.{start_crosses, flow_crosses, next_crosses, take_crosses};

use transport::{CanFrame, FlowAnswer, FlowControl, Receiver, Refused, Sender, TakeAnswer};

// ---- what crosses by value

// "8-byte frames"
#[repr(C)]
#[derive(Clone, Copy)]
pub struct PanelCanFrame {
    pub bytes: [u8; 8],
}

// A sender: 0 idle, 1 waiting, 2 running; what is left of the block; the number of the next consecutive frame.
#[repr(C)]
#[derive(Clone, Copy)]
pub struct PanelSender {
    pub state: u8,
    pub left: u8,
    pub next: usize,
}

// A receiver: 0 idle, 1 collecting; what is left of the block; the number of the next consecutive frame; the length of
// the message.
#[repr(C)]
#[derive(Clone, Copy)]
pub struct PanelReceiver {
    pub state: u8,
    pub left: u8,
    pub next: usize,
    pub size: usize,
}

// The answer of start.
#[repr(C)]
#[derive(Clone, Copy)]
pub struct PanelStarted {
    pub number: u8,
    pub frame: PanelCanFrame,
    pub sender: PanelSender,
}

// The answer of flow: what it says is 1 go, 2 wait, 3 aborted; 0 on a refusal.
#[repr(C)]
#[derive(Clone, Copy)]
pub struct PanelFlowed {
    pub number: u8,
    pub says: u8,
    pub separation: u8,
    pub sender: PanelSender,
}

// The answer of next: whether a frame is due.
#[repr(C)]
#[derive(Clone, Copy)]
pub struct PanelNext {
    pub due: u8,
    pub frame: PanelCanFrame,
    pub sender: PanelSender,
}

// The answer of take: what it says is 1 going, 2 control, 3 complete; 0 on a refusal.
#[repr(C)]
#[derive(Clone, Copy)]
pub struct PanelTaken {
    pub number: u8,
    pub says: u8,
    pub frame: PanelCanFrame,
    pub length: usize,
    pub receiver: PanelReceiver,
}

// ---- a frame, a sender and a receiver as bytes and numbers, and back

impl From<PanelCanFrame> for CanFrame {
    ghost from_gives = { λ given frame. frame ≡ frame_of given.bytes };

    fn from(given: PanelCanFrame) -> CanFrame {
        let bytes = given.bytes;
        CanFrame { bytes }
    }
}

impl From<CanFrame> for PanelCanFrame {
    ghost from_gives = { λ frame bytes. bytes ≡ frame_bytes frame };

    fn from(frame: CanFrame) -> PanelCanFrame {
        let bytes = frame.bytes;
        PanelCanFrame { bytes }
    }
}

// Any other state is idle.
impl From<PanelSender> for Sender {
    ghost from_gives = { λ given sender. sender ≡ sender_of given };

    fn from(given: PanelSender) -> Sender {
        match given.state {
            1 => Sender::Waiting(given.next),
            2 => Sender::Running(given.next, given.left),
            _ => Sender::Idle,
        }
    }
}

// Any other state is idle.
impl From<PanelReceiver> for Receiver {
    ghost from_gives = { λ given receiver. receiver ≡ receiver_of given };

    fn from(given: PanelReceiver) -> Receiver {
        match given.state {
            1 => Receiver::Collecting(given.size, given.next, given.left),
            _ => Receiver::Idle,
        }
    }
}

impl From<Sender> for PanelSender {
    ghost from_gives = { λ sender bytes. bytes ≡ sender_bytes sender };

    fn from(sender: Sender) -> PanelSender {
        let (state, left, next) = match sender {
            Sender::Idle => (0, 0, 0),
            Sender::Waiting(k) => (1, 0, k),
            Sender::Running(k, left) => (2, left, k),
        };
        PanelSender { state, left, next }
    }
}

impl From<Receiver> for PanelReceiver {
    ghost from_gives = { λ receiver bytes. bytes ≡ receiver_bytes receiver };

    fn from(receiver: Receiver) -> PanelReceiver {
        let (state, left, next, size) = match receiver {
            Receiver::Idle => (0, 0, 0, 0),
            Receiver::Collecting(size, k, left) => (1, left, k, size),
        };
        PanelReceiver {
            state,
            left,
            next,
            size,
        }
    }
}

// ---- what is handed back

// Where there is no frame.
const NO_FRAME: PanelCanFrame = PanelCanFrame { bytes: [0; 8] };

// "All these are new number 13"
const THIRTEEN: u8 = 13;

fn started_bytes(started: Result<(CanFrame, Sender), Refused>) -> PanelStarted
    ensures { result ≡ started_bytes started }
{
    let Ok((frame, sender)) = started else {
        return PanelStarted {
            number: THIRTEEN,
            frame: NO_FRAME,
            sender: PanelSender::from(Sender::Idle),
        };
    };
    PanelStarted {
        number: 0,
        frame: PanelCanFrame::from(frame),
        sender: PanelSender::from(sender),
    }
}

// A refusal hands back the sender that was given.
fn flowed_bytes(
    given: PanelSender,
    answer: Result<FlowAnswer, Refused>,
    after: Sender,
) -> PanelFlowed
    ensures { result ≡ flowed_bytes given answer after }
{
    let (number, says, separation, sender) = match answer {
        Ok(FlowAnswer::Go(time)) => (0, 1, time, PanelSender::from(after)),
        Ok(FlowAnswer::Wait) => (0, 2, 0, PanelSender::from(after)),
        Ok(FlowAnswer::Aborted) => (0, 3, 0, PanelSender::from(after)),
        Err(_) => (THIRTEEN, 0, 0, given),
    };
    PanelFlowed {
        number,
        says,
        separation,
        sender,
    }
}

// Where nothing is due, the sender that was given.
fn next_bytes(given: PanelSender, due: Option<CanFrame>, after: Sender) -> PanelNext
    ensures { result ≡ next_bytes given due after }
{
    let Some(frame) = due else {
        return PanelNext {
            due: 0,
            frame: NO_FRAME,
            sender: given,
        };
    };
    PanelNext {
        due: 1,
        frame: PanelCanFrame::from(frame),
        sender: PanelSender::from(after),
    }
}

fn taken_bytes(answer: Result<TakeAnswer, Refused>, after: Receiver) -> PanelTaken
    ensures { result ≡ taken_bytes answer after }
{
    let (number, says, frame, length) = match answer {
        Ok(TakeAnswer::Going) => (0, 1, NO_FRAME, 0),
        Ok(TakeAnswer::Control(frame)) => (0, 2, PanelCanFrame::from(frame), 0),
        Ok(TakeAnswer::Complete(size)) => (0, 3, NO_FRAME, size),
        Err(_) => (THIRTEEN, 0, NO_FRAME, 0),
    };
    let receiver = PanelReceiver::from(after);
    PanelTaken {
        number,
        says,
        frame,
        length,
        receiver,
    }
}

// ---- the four calls

pub fn start(message: &[u8]) -> PanelStarted
    ensures { result ≡ start_crosses message.now }
{
    started_bytes(sending::start(message))
}

pub fn flow(sender: PanelSender, frame: PanelCanFrame) -> PanelFlowed
    ensures { result ≡ flow_crosses sender frame }
{
    let mut after = Sender::from(sender);
    let answer = sending::flow(&mut after, CanFrame::from(frame));
    flowed_bytes(sender, answer, after)
}

pub fn next(sender: PanelSender, message: &[u8]) -> PanelNext
    ensures { result ≡ next_crosses sender message.now }
{
    let mut after = Sender::from(sender);
    let due = sending::next(&mut after, message);
    next_bytes(sender, due, after)
}

pub fn take(
    receiver: PanelReceiver,
    room: &mut [u8],
    block: u8,
    separation: u8,
    frame: PanelCanFrame,
) -> PanelTaken
    ensures { with_room result room.new ≡ take_crosses receiver room.old block separation frame }
{
    let mut after = Receiver::from(receiver);
    let flow = FlowControl { block, separation };
    let answer = receiving::take(&mut after, room, flow, CanFrame::from(frame));
    taken_bytes(answer, after)
}
