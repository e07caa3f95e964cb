// Document 02, W13: a sender. Each call takes any sender, message and frame whatever.
#![tactic(auto)]

ghost use Rattle.std.specs.Prelude.{◌≡◌, true, Ok, ◌+◌, ◌≤◌, length};
ghost use Rattle.std.proofs.lemmas.List.Edits.{sets};
ghost use Rattle.transport.specs.Frames.{frame_of, single, first, consecutive, longest, has};
ghost use Rattle.transport.specs.Sending.{allowed, start, flowed, controlled, flow, carries_on, sent};
ghost use Rattle.transport.specs.Sending.{offers, next_frame};

use transport::{CanFrame, FlowAnswer, Refused, Sender};

// ---- frames

// The frame of these bytes with a part of a message stored in them.
fn framed(head: [u8; 8], at: usize, part: &[u8]) -> CanFrame
    requires { at + length part.now ≤ 8 }
    ensures { result ≡ frame_of (sets head at part.now) }
{
    let mut bytes = head;
    writing::put(&mut bytes, at, part);
    CanFrame { bytes }
}

// "Up to 7 bytes go in a single frame (`0N`)"
fn single(message: &[u8]) -> CanFrame
    requires { length message.now ≤ 7 }
    ensures { result ≡ single message.now }
{
    let size = message.len() as u8;
    framed([size, 0, 0, 0, 0, 0, 0, 0], 1, message)
}

// "8 to 4,095 in a first frame (`1L LL` and 6 bytes)"
fn first(message: &[u8]) -> CanFrame
    requires { (8 ≤ length message.now) × (length message.now ≤ longest) }
    ensures { result ≡ first message.now }
{
    let high = (message.len() / 256) as u8;
    let low = (message.len() % 256) as u8;
    framed([0x10 + high, low, 0, 0, 0, 0, 0, 0], 2, &message[..6])
}

// "then consecutive frames `2N`, N from 1 counting modulo 16, 7 bytes each"
fn consecutive(message: &[u8], k: usize) -> CanFrame
    requires { has (length message.now) k ≡ true }
    ensures { result ≡ consecutive message.now k }
{
    let at = 7 * k - 1;
    let end = at + usize::min(7, message.len() - at);
    let n = (k % 16) as u8;
    framed([0x20 + n, 0, 0, 0, 0, 0, 0, 0], 1, &message[at..end])
}

// ---- start

// "A sender refuses messages outside 1 to 4,095 bytes."
fn allowed(size: usize) -> bool
    ensures { result ≡ allowed size }
{
    (1 <= size) & (size <= transport::LONGEST)
}

// Begins a message: the single or first frame, and where the sender then stands.
pub fn start(message: &[u8]) -> Result<(CanFrame, Sender), Refused>
    ensures { result ≡ start message.now }
{
    if !allowed(message.len()) {
        return Err(Refused);
    }
    if message.len() <= 7 {
        return Ok((single(message), Sender::Idle));
    }
    Ok((first(message), Sender::Waiting(1)))
}

// ---- flow control

// "Flow control `30`, block size, separation time; `31` waits, `32` or any other first byte aborts"
fn controlled(k: usize, frame: CanFrame) -> (FlowAnswer, Sender)
    ensures { flowed (Ok result.0) result.1 ≡ controlled k frame }
{
    let [kind, block, separation, ..] = frame.bytes;
    match kind {
        0x30 => (FlowAnswer::Go(separation), Sender::Running(k, block)),
        0x31 => (FlowAnswer::Wait, Sender::Waiting(k)),
        _ => (FlowAnswer::Aborted, Sender::Idle),
    }
}

// "A sender takes flow control only when it is due, any other state refuses it.": while it waits with a frame that some
// message has. A refusal leaves it as it was.
pub fn flow(sender: &mut Sender, frame: CanFrame) -> Result<FlowAnswer, Refused>
    ensures { flowed result sender.new ≡ flow sender.old frame }
{
    let Sender::Waiting(k) = *sender else {
        return Err(Refused);
    };
    if !transport::has(transport::LONGEST, k) {
        return Err(Refused);
    }
    let (answer, after) = controlled(k, frame);
    *sender = after;
    Ok(answer)
}

// ---- the next frame

// Where the sender stands before frame k, behind one before which so many were left of the block.
fn goes_on(k: usize, left: u8) -> Sender
    ensures { result ≡ carries_on k left }
{
    match left {
        0 => Sender::Running(k, 0),
        1 => Sender::Waiting(k),
        _ => Sender::Running(k, left - 1),
    }
}

// The sender after frame k.
fn sent(size: usize, k: usize, left: u8) -> Sender
    requires { has size k ≡ true }
    ensures { result ≡ sent size k left }
{
    if k == size / 7 {
        return Sender::Idle;
    }
    goes_on(k + 1, left)
}

// The next consecutive frame, if one is due and the message has it.
pub fn next(sender: &mut Sender, message: &[u8]) -> Option<CanFrame>
    ensures { offers result sender.new ≡ next_frame sender.old message.now }
{
    let Sender::Running(k, left) = *sender else {
        return None;
    };
    if !transport::has(message.len(), k) {
        return None;
    }
    *sender = sent(message.len(), k, left);
    Some(consecutive(message, k))
}
