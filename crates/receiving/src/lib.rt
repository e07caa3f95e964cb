// Document 02, W13: a receiver. The call takes any receiver, room and frame whatever.
#![tactic(auto)]

ghost use Rattle.std.specs.Prelude.{◌≡◌, true, Ok, ◌+◌, ◌*◌, ◌%◌, ◌≤◌, length, take, drop};
ghost use Rattle.std.proofs.lemmas.List.Edits.{sets};
ghost use Rattle.transport.specs.Frames.{has, control};
ghost use Rattle.transport.specs.Receiving.{took, taken, taken_by, takes_single, announced, takes_first, takes_next};
ghost use Rattle.transport.specs.Receiving.{beginning, awaits, received, collecting, take_frame};

use transport::{CanFrame, FlowControl, Receiver, Refused, TakeAnswer};

// "Flow control `30`, block size, separation time"
fn control(flow: FlowControl) -> CanFrame
    ensures { result ≡ control flow.block flow.separation }
{
    let bytes = [0x30, flow.block, flow.separation, 0, 0, 0, 0, 0];
    CanFrame { bytes }
}

// ---- the room

// Stores a part of a frame in the room.
fn store(room: &mut [u8], at: usize, frame: CanFrame, from: usize, count: usize)
    requires { (from + count ≤ 8) × (at + count ≤ length room.old) }
    ensures { room.new ≡ sets room.old at (take count (drop from frame.bytes)) }
{
    let end = from + count;
    writing::put(room, at, &frame.bytes[from..end]);
}

// ---- nothing is under way

// "a single-frame length of 0 or above 7", "a length above its room"
fn takes_single(space: usize, frame: CanFrame) -> bool
    ensures { result ≡ takes_single space frame }
{
    let size = frame.bytes[0] as usize;
    (1 <= size) & (size <= 7) & (size <= space)
}

// `1L LL`
fn joined(high: u8, low: u8) -> usize
    ensures { result ≡ high % 16 * 256 + low }
{
    (high % 16) as usize * 256 + low as usize
}

// The length that a first frame tells.
fn announced(frame: CanFrame) -> usize
    ensures { result ≡ announced frame }
{
    joined(frame.bytes[0], frame.bytes[1])
}

// "a first frame below 8, a length above its room"
fn takes_first(space: usize, frame: CanFrame) -> bool
    ensures { result ≡ takes_first space frame }
{
    let kind = frame.bytes[0];
    let size = announced(frame);
    (0x10 <= kind) & (kind < 0x20) & (8 <= size) & (size <= space)
}

// A frame while nothing is under way: what it asks of the driver, and where the receiver then stands.
fn beginning(
    room: &mut [u8],
    flow: FlowControl,
    frame: CanFrame,
) -> Result<(TakeAnswer, Receiver), Refused>
    ensures { took (taken_by result) room.new ≡ beginning flow.block flow.separation room.old frame }
{
    if takes_single(room.len(), frame) {
        let size = frame.bytes[0] as usize;
        store(room, 0, frame, 1, size);
        return Ok((TakeAnswer::Complete(size), Receiver::Idle));
    }
    if takes_first(room.len(), frame) {
        store(room, 0, frame, 2, 6);
        let after = Receiver::Collecting(announced(frame), 1, flow.block);
        return Ok((TakeAnswer::Control(control(flow)), after));
    }
    Err(Refused)
}

// ---- frame k of a message is due

// "a wrong N", "any frame not due (a house rule)"
fn takes_next(space: usize, size: usize, k: usize, frame: CanFrame) -> bool
    ensures { result ≡ takes_next space size k frame }
{
    let n = (k % 16) as u8;
    transport::has(size, k) & (size <= space) & (frame.bytes[0] == 0x20 + n)
}

// Frame k comes next, behind one before which so many were left of the block.
fn awaits(flow: FlowControl, size: usize, k: usize, left: u8) -> (TakeAnswer, Receiver)
    ensures { taken (Ok result.0) result.1 ≡ awaits flow.block flow.separation size k left }
{
    match left {
        0 => (TakeAnswer::Going, Receiver::Collecting(size, k, 0)),
        1 => (
            TakeAnswer::Control(control(flow)),
            Receiver::Collecting(size, k, flow.block),
        ),
        _ => (TakeAnswer::Going, Receiver::Collecting(size, k, left - 1)),
    }
}

// The receiver after frame k.
fn received(flow: FlowControl, size: usize, k: usize, left: u8) -> (TakeAnswer, Receiver)
    requires { has size k ≡ true }
    ensures { taken (Ok result.0) result.1 ≡ received flow.block flow.separation size k left }
{
    if k == size / 7 {
        return (TakeAnswer::Complete(size), Receiver::Idle);
    }
    awaits(flow, size, k + 1, left)
}

// A frame while frame k of a message of this length is due.
fn collecting(
    size: usize,
    k: usize,
    left: u8,
    room: &mut [u8],
    flow: FlowControl,
    frame: CanFrame,
) -> Result<(TakeAnswer, Receiver), Refused>
    ensures { took (taken_by result) room.new
        ≡ collecting flow.block flow.separation size k left room.old frame }
{
    if !takes_next(room.len(), size, k, frame) {
        return Err(Refused);
    }
    let at = 7 * k - 1;
    store(room, at, frame, 1, usize::min(7, size - at));
    Ok(received(flow, size, k, left))
}

// ---- take

// What a frame asks of the driver, and where the receiver then stands: what is refused drops the message, and "a
// refused frame writes nothing".
pub fn take(
    receiver: &mut Receiver,
    room: &mut [u8],
    flow: FlowControl,
    frame: CanFrame,
) -> Result<TakeAnswer, Refused>
    ensures { took (taken result receiver.new) room.new
        ≡ take_frame flow.block flow.separation receiver.old room.old frame }
{
    let before = *receiver;
    *receiver = Receiver::Idle;
    let (answer, after) = match before {
        Receiver::Idle => beginning(room, flow, frame)?,
        Receiver::Collecting(size, k, left) => collecting(size, k, left, room, flow, frame)?,
    };
    *receiver = after;
    Ok(answer)
}
