// Document 02, W13, "Carry replies over CAN": the types of a sender and a receiver of ISO 15765-2, and what both ask of
// a message and of a frame. What the calls do is defined in specs/.
#![tactic(auto)]

ghost use Rattle.std.specs.Prelude.{◌≡◌};
ghost use Rattle.transport.specs.Frames.{has};

// "8-byte frames, normal addressing": a frame's bytes. Its identifier is the driver's.
#[derive(Clone, Copy, PartialEq, Eq)]
pub struct CanFrame {
    pub bytes: [u8; 8],
}

// "All these are new number 13": a message, flow control or a frame is refused.
#[derive(Clone, Copy, PartialEq, Eq)]
pub struct Refused;

// What a receiver's flow control says: block size, separation time.
#[derive(Clone, Copy)]
pub struct FlowControl {
    pub block: u8,
    pub separation: u8,
}

// Where a sender stands: nothing is under way; flow control is due before the consecutive frame of this number; that
// frame is due, and so many are left of the block (0: no limit).
#[derive(Clone, Copy)]
pub enum Sender {
    Idle,
    Waiting(usize),
    Running(usize, u8),
}

// Where a receiver stands: nothing is under way; of a message of this length the consecutive frame of this number is
// due, and so many are left of the block (0: no limit).
#[derive(Clone, Copy)]
pub enum Receiver {
    Idle,
    Collecting(usize, usize, u8),
}

// What flow control tells the driver: to go on, with this separation time; to wait; that the message is given up.
#[derive(Clone, Copy, PartialEq, Eq)]
pub enum FlowAnswer {
    Go(u8),
    Wait,
    Aborted,
}

// What a received frame asks of the driver: nothing yet; to send this flow control; to fetch the message of this length
// from the room.
#[derive(Clone, Copy)]
pub enum TakeAnswer {
    Going,
    Control(CanFrame),
    Complete(usize),
}

// How far an exchange is: this frame is on the line; a message of this length stands in the room; or it failed.
#[derive(Clone, Copy)]
pub enum Stage {
    Coming(CanFrame),
    Arrived(usize),
    Failed,
}

// A sender and a receiver that are joined by a line.
#[derive(Clone, Copy)]
pub struct Line {
    pub sender: Sender,
    pub receiver: Receiver,
    pub stage: Stage,
}

// "A sender refuses messages outside 1 to 4,095 bytes."
pub const LONGEST: usize = 4095;

// A message of this length has a consecutive frame of this number.
pub fn has(size: usize, k: usize) -> bool
    ensures { result ≡ has size k }
{
    (8 <= size) & (size <= LONGEST) & (1 <= k) & (k <= size / 7)
}
