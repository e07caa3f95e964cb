// Document 01, "read status 4; read frame 4, 10": the calls that read an event's status byte and its stored frame; and
// document 02, W1: the call that reads its fault detection counter, W5: the one that reads which of its needed
// conditions are missing.
#![tactic(auto)]

ghost use Rattle.std.specs.Prelude.{true, ◌≡◌, [], ◌≤◌};
ghost use Rattle.manual.specs.Configuration.{most_places, most_frame, most_payload, frame_bytes, entry_frames};
ghost use Rattle.manual.specs.Lent.{as_found};
ghost use Rattle.manual.specs.Memory.{entries_of};
ghost use Rattle.manual.specs.Answers.{alone, first_that_applies, of_status, leaves};
ghost use Rattle.manual.specs.Calls.{begins, no_such_event, read_status};
ghost use Rattle.manual.specs.Counter.{counter_read};
ghost use Rattle.manual.specs.Missing.{missing_read};
ghost use Rattle.judgement.specs.Checks.{check_number};
ghost use Rattle.memory.specs.Fits.{EntriesFit};
ghost use Rattle.memory.specs.Places.{place_of};
ghost use Rattle.queries.specs.Reading.{four, tells, tells_missing, part_at, part_of, says, skipped, chosen_part};
ghost use Rattle.queries.specs.Reading.{entry_answer, frame_read};

use manual::{EventNumber, FramePart, Lent, Place, Refusal, StillMissing, Which};

// ---- 2, 3, 4

// "4 | no such event"
#[tactic(auto, unfolding(manual::specs::Answers::first_that_applies))]
fn four(no_such: bool) -> Result<(), Refusal>
    ensures { check_number result ≡ first_that_applies (four no_such) }
{
    if no_such {
        return Err(Refusal::NoSuch);
    }
    Ok(())
}

// 2, 3, then 4: with these every call that reads something of one event begins.
pub fn judge(cfg: &[i32], state: &Lent, event: EventNumber) -> Result<(), Refusal>
    ensures { check_number result
        ≡ first_that_applies
        (begins cfg.now (as_found state.now)
        true (four (no_such_event cfg.now event.0))) }
{
    judgement::begin(cfg, state, true)?;
    four(config::events(cfg) <= event.0)
}

// ---- read status

// The event's status byte.
pub fn read_status(cfg: &[i32], state: &Lent, event: EventNumber) -> Result<u8, Refusal>
    ensures { leaves (of_status result) [] alone
        (as_found state.now)
        ≡ read_status cfg.now event.0 alone
        (as_found state.now) }
{
    judge(cfg, state, event)?;
    Ok(status::status_of(state.records, event).0)
}

// ---- read counter

// The event's fault detection counter, −128 to 127.
pub fn read_counter(cfg: &[i32], state: &Lent, event: EventNumber) -> Result<i8, Refusal>
    ensures { tells result (as_found state.now)
        ≡ counter_read cfg.now event.0 alone
        (as_found state.now) }
{
    judge(cfg, state, event)?;
    let counter = counter::counter_of(cfg, state.records, state.debounce, event);
    Ok(counter as i8)
}

// ---- read missing

// How many of the conditions that the event needs are not in the set of those that are present, and the lowest of them.
pub fn read_missing(
    cfg: &[i32],
    state: &Lent,
    event: EventNumber,
    present: u32,
) -> Result<StillMissing, Refusal>
    ensures { tells_missing result (as_found state.now)
        ≡ missing_read cfg.now event.0 present alone
        (as_found state.now) }
{
    judge(cfg, state, event)?;
    Ok(conditions::still_missing(cfg, event, present))
}

// ---- read frame

// Document 02, W6: "first frame, latest frame": the bytes of a payload before the chosen one.
fn skipped(which: Which, frame_bytes: usize) -> usize
    ensures { result ≡ skipped which frame_bytes }
{
    match which {
        Which::First => 0,
        Which::Latest => frame_bytes,
    }
}

// Where the chosen frame of the entry at a place stands.
fn chosen_part(payload_bytes: usize, frame_bytes: usize, which: Which, place: Place) -> FramePart
    requires { (payload_bytes ≤ most_payload) × ((frame_bytes ≤ most_frame) × (place.0 ≤ most_places)) }
    ensures { result ≡ chosen_part payload_bytes frame_bytes which place }
{
    FramePart {
        start: memory::frame_start(payload_bytes, place) + skipped(which, frame_bytes),
        length: frame_bytes,
    }
}

// Where the chosen frame of the event's entry stands; "10 | event has no memory entry".
fn frame_of(
    cfg: &[i32],
    memory: &[u8],
    event: EventNumber,
    which: Which,
) -> Result<FramePart, Refusal>
    requires { EntriesFit (entry_frames cfg.now) memory.now }
    ensures { result
        ≡ entry_answer (entry_frames cfg.now) (frame_bytes cfg.now) which
        (place_of event.0 (entries_of (entry_frames cfg.now) memory.now)) }
{
    let frame_bytes = config::frame_bytes(cfg);
    let payload_bytes = memory::entry_frames(cfg);
    let place = memory::place_of(memory, payload_bytes, event).ok_or(Refusal::NoEntry)?;
    Ok(chosen_part(payload_bytes, frame_bytes, which, place))
}

// Where the event's frame, the first or the latest, stands in the caller's own memory block; `frame_part` gives the
// bytes.
pub fn read_frame(
    cfg: &[i32],
    state: &Lent,
    event: EventNumber,
    which: Which,
) -> Result<FramePart, Refusal>
    ensures { says result (as_found state.now)
        ≡ frame_read cfg.now event.0 which
        (as_found state.now) }
{
    judge(cfg, state, event)?;
    frame_of(cfg, state.memory, event, which)
}

// ---- the part of the caller's own memory block

// The bytes from the start on, where they lie within the block; else none.
fn part_at<'a>(memory: &'a [u8], start: usize, length: usize) -> &'a [u8]
    ensures { result.now ≡ part_at start length memory.now }
{
    match memory.get(start..) {
        Some(behind) => behind.get(..length).unwrap_or(&[]),
        None => &[],
    }
}

// "The stored frame is read as a part of the caller's own memory block, no copy.": the part that an answer of
// `read_frame` names, in the block that it was asked of. It is empty on a refusal, and where a block does not reach so
// far.
pub fn frame_part<'a>(memory: &'a [u8], answer: Result<FramePart, Refusal>) -> &'a [u8]
    ensures { result.now ≡ part_of answer memory.now }
{
    match answer {
        Ok(part) => part_at(memory, part.start, part.length),
        Err(_) => &[],
    }
}
