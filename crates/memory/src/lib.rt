// Document 01, "Memory": the entries of events that failed, in the lent block of bytes.
#![tactic(auto)]

use manual::{EventNumber, Place, StoreAnswer};

mod block;
mod readings;

ghost use Rattle.std.specs.Prelude.{◌≡◌, ◌&&◌, ◌++◌, eqb, suc, min, ◌+◌, ◌≤◌, ◌<◌, length};
ghost use Rattle.std.proofs.lemmas.List.Edits.{sets};
ghost use Rattle.history.specs.Words.{all_of};
ghost use Rattle.manual.specs.Configuration.{most_events, most_places, most_payload, events};
ghost use Rattle.manual.specs.Configuration.{places, entry_frames, priority_of};
ghost use Rattle.manual.specs.Memory.{event_of, first_frame, payload_of, displacing, memory_length, entry_count};
ghost use Rattle.manual.specs.Memory.{bytes_in_use, entries_of, memory_of, without, no_twice};
ghost use Rattle.memory.specs.Places.{frame_at, at_place, first_place, place_of, outranks, rests, victim_place};
ghost use Rattle.memory.specs.Fits.{EntriesFit, PlaceFits, RoomAt, EventsFit};
ghost use Rattle.memory.specs.InOrder.{InOrder};
ghost use Rattle.memory.specs.Judgement.{Small, sound_numbers, sound_entry, used_ok, zeros, block_ok};
ghost use Rattle.memory.specs.Store.{MayStore, quiet_in, left_with, admits, stores};
ghost use Rattle.memory.specs.Block.{gap_closed, entered, removed, added, replaced, renewed_at};

// "event number (2 bytes, high first), occurrence count (1 to 255)": the bytes of an entry before its payload.
pub const BEFORE_PAYLOAD: usize = 3;

// The length of an entry's payload.
pub fn entry_frames(cfg: &[i32]) -> usize
    ensures { result ≡ entry_frames cfg.now }
{
    config::entry_frames(cfg)
}

// The number of entries.
pub fn entry_count(memory: &[u8]) -> usize
    requires { 0 < length memory.now }
    ensures { result ≡ entry_count memory.now }
{
    block::wide(memory[0])
}

// The first byte of the entry at a place, or of what follows the entries before it.
fn start_of(payload_bytes: usize, place: Place) -> usize
    requires { (payload_bytes ≤ most_payload) × (place.0 ≤ most_places) }
    ensures { result ≡ bytes_in_use payload_bytes place.0 }
{
    1 + (BEFORE_PAYLOAD + payload_bytes) * place.0
}

// The length of a memory block.
pub fn memory_length(places: usize, payload_bytes: usize) -> usize
    requires { (places ≤ most_places) × (payload_bytes ≤ most_payload) }
    ensures { result ≡ memory_length places payload_bytes }
{
    1 + places * (BEFORE_PAYLOAD + payload_bytes)
}

// The bytes of the number of entries and of the entries.
pub fn bytes_in_use(memory: &[u8], payload_bytes: usize) -> usize
    requires { (0 < length memory.now)
        × ((entry_count memory.now ≤ most_places) × (payload_bytes ≤ most_payload)) }
    ensures { result ≡ bytes_in_use payload_bytes (entry_count memory.now) }
{
    start_of(payload_bytes, Place(entry_count(memory)))
}

// The event of the entry at a place: "event number (2 bytes, high first)".
pub fn event_at(memory: &[u8], payload_bytes: usize, place: Place) -> EventNumber
    requires { PlaceFits payload_bytes memory.now place.0 }
    ensures { result.0 ≡ event_of (at_place place.0 (entries_of payload_bytes memory.now)) }
{
    let start = start_of(payload_bytes, place);
    EventNumber(block::wide(memory[start]) * 256 + block::wide(memory[start + 1]))
}

// The occurrence count of the entry at a place.
pub fn count_at(memory: &[u8], payload_bytes: usize, place: Place) -> u8
    requires { PlaceFits payload_bytes memory.now place.0 }
    ensures { result ≡ (at_place place.0 (entries_of payload_bytes memory.now)).count }
{
    let start = start_of(payload_bytes, place);
    memory[start + 2]
}

// Where the frames of the entry at a place start.
pub fn frame_start(payload_bytes: usize, place: Place) -> usize
    requires { (payload_bytes ≤ most_payload) × (place.0 ≤ most_places) }
    ensures { result ≡ frame_at payload_bytes place }
{
    start_of(payload_bytes, place) + BEFORE_PAYLOAD
}

// The payload of the entry at a place, as a part of the block.
pub fn payload_at<'a>(memory: &'a [u8], payload_bytes: usize, place: Place) -> &'a [u8]
    requires { PlaceFits payload_bytes memory.now place.0 }
    ensures { result.now
        ≡ (at_place place.0 (entries_of payload_bytes memory.now)).payload }
{
    let start = start_of(payload_bytes, place) + BEFORE_PAYLOAD;
    let end = start + payload_bytes;
    &memory[start..end]
}

// Whether the entry at a place is the event's. Most are told by the low byte of their number, so it is looked at first.
fn is_of(memory: &[u8], payload_bytes: usize, place: Place, event: EventNumber) -> bool
    requires { PlaceFits payload_bytes memory.now place.0 }
    ensures { result
        ≡ eqb (event_of (at_place place.0 (entries_of payload_bytes memory.now))) event.0 }
{
    let start = start_of(payload_bytes, place);
    let low = block::wide(memory[start + 1]);
    if low != event.0 % 256 {
        return false;
    }
    block::wide(memory[start]) * 256 + low == event.0
}

// The place of the event's entry.
pub fn place_of(memory: &[u8], payload_bytes: usize, event: EventNumber) -> Option<Place>
    requires { EntriesFit payload_bytes memory.now }
    ensures { result ≡ place_of event.0 (entries_of payload_bytes memory.now) }
{
    for i in 0..entry_count(memory) {
        if is_of(memory, payload_bytes, Place(i), event) {
            return Some(Place(i));
        }
    }
    None
}

// "Removal closes the gap and keeps the order.": takes the bytes of the entry at a place out.
fn close_gap(memory: &mut [u8], payload_bytes: usize, place: Place)
    requires { PlaceFits payload_bytes memory.old place.0 }
    ensures { memory.new ≡ gap_closed payload_bytes place.0 memory.old }
{
    let start = start_of(payload_bytes, place);
    block::close(memory, start, BEFORE_PAYLOAD + payload_bytes);
}

// Takes the entry at a place out.
fn remove(memory: &mut [u8], payload_bytes: usize, place: Place)
    requires { PlaceFits payload_bytes memory.old place.0 }
    ensures { memory.new ≡ removed payload_bytes place.0 memory.old }
{
    let entries = memory[0];
    close_gap(memory, payload_bytes, place);
    memory[0] = entries - 1;
}

// Writes the frames of an entry at a byte: "first frame, latest frame".
fn put_frames(memory: &mut [u8], at: usize, first: &[u8], latest: &[u8])
    requires { at + (length first.now + length latest.now) ≤ length memory.old }
    ensures { memory.new
        ≡ sets memory.old at (first.now ++ latest.now) }
{
    writing::put(memory, at, first);
    writing::put(memory, at + first.len(), latest);
}

// Writes an entry of the event, with an occurrence count and two frames, at a place.
fn enter(
    memory: &mut [u8],
    payload_bytes: usize,
    place: Place,
    event: EventNumber,
    count: u8,
    first: &[u8],
    latest: &[u8],
)
    requires { (RoomAt payload_bytes memory.old place.0 event.0)
        × (length first.now + length latest.now ≡ payload_bytes) }
    ensures { memory.new
        ≡ entered payload_bytes place.0 event.0 count (first.now ++ latest.now)
        memory.old }
{
    let start = start_of(payload_bytes, place);
    let high = (event.0 / 256) as u8;
    let low = (event.0 % 256) as u8;
    writing::put(memory, start, &[high, low, count]);
    put_frames(memory, start + BEFORE_PAYLOAD, first, latest);
}

// Puts an entry of the event, with an occurrence count and two frames, at the end.
fn append(
    memory: &mut [u8],
    payload_bytes: usize,
    event: EventNumber,
    count: u8,
    first: &[u8],
    latest: &[u8],
)
    requires { (RoomAt payload_bytes memory.old (entry_count memory.old) event.0) ×
        (length first.now + length latest.now ≡ payload_bytes) }
    ensures { memory.new
        ≡ added payload_bytes event.0 count (first.now ++ latest.now) memory.old }
{
    let end = Place(entry_count(memory));
    memory[0] = memory[0] + 1;
    enter(memory, payload_bytes, end, event, count, first, latest);
}

// Takes the entry at a place out and puts one of the event at the end, where the newest then stands.
fn replace(
    memory: &mut [u8],
    payload_bytes: usize,
    place: Place,
    event: EventNumber,
    count: u8,
    first: &[u8],
    latest: &[u8],
)
    requires { (PlaceFits payload_bytes memory.old place.0) ×
        ((event.0 < 65536) × (length first.now + length latest.now ≡ payload_bytes)) }
    ensures { memory.new
        ≡ replaced payload_bytes place.0 event.0 count (first.now ++ latest.now)
        memory.old }
{
    let newest = Place(entry_count(memory) - 1);
    close_gap(memory, payload_bytes, place);
    enter(memory, payload_bytes, newest, event, count, first, latest);
}

// The event's entry leaves, where it has one. Behind the last entry all is 0: only the bytes in use are moved.
pub fn forget(cfg: &[i32], memory: &mut [u8], event: EventNumber)
    requires { InOrder (events cfg.now) (places cfg.now) (entry_frames cfg.now) memory.old }
    ensures { memory.new
        ≡ memory_of (places cfg.now) (entry_frames cfg.now)
        (without event.0 (entries_of (entry_frames cfg.now) memory.old)) }
{
    let payload_bytes = entry_frames(cfg);
    if let Some(place) = place_of(memory, payload_bytes, event) {
        let used = bytes_in_use(memory, payload_bytes);
        remove(&mut memory[..used], payload_bytes, place);
    }
}

// "among entries whose priority number is greater than e's, the greatest, and the oldest among equals"
fn place_of_greatest(
    cfg: &[i32],
    memory: &[u8],
    payload_bytes: usize,
    event: EventNumber,
) -> Option<Place>
    requires { (EventsFit payload_bytes memory.now) × (event.0 < most_events) }
    ensures { result
        ≡ first_place
        (outranks (priority_of cfg.now) event.0 (entries_of payload_bytes memory.now))
        (entries_of payload_bytes memory.now) }
{
    let mut best = None;
    let mut top = config::priority_of(cfg, event);
    for i in 0..entry_count(memory) {
        let priority = config::priority_of(cfg, event_at(memory, payload_bytes, Place(i)));
        if top < priority {
            top = priority;
            best = Some(Place(i));
        }
    }
    best
}

// "equal priority number whose event has bit 0 clear": the other event's, compared with that of an event of priority
// number p.
fn gives_way(cfg: &[i32], records: &[u8], other: EventNumber, p: usize) -> bool
    requires { other.0 < most_events }
    ensures { result
        ≡ eqb (priority_of cfg.now other.0) p && quiet_in records.now other.0 }
{
    let equal = config::priority_of(cfg, other) == p;
    equal & readings::is_quiet(records, other)
}

// "the oldest entry of equal priority number whose event has bit 0 clear"
fn place_of_resting(
    cfg: &[i32],
    records: &[u8],
    memory: &[u8],
    payload_bytes: usize,
    event: EventNumber,
) -> Option<Place>
    requires { (EventsFit payload_bytes memory.now) × (event.0 < most_events) }
    ensures { result
        ≡ first_place (rests (priority_of cfg.now) (quiet_in records.now) event.0)
        (entries_of payload_bytes memory.now) }
{
    let p = config::priority_of(cfg, event);
    for i in 0..entry_count(memory) {
        if gives_way(cfg, records, event_at(memory, payload_bytes, Place(i)), p) {
            return Some(Place(i));
        }
    }
    None
}

// Rule 3: the place of the victim of a fresh failure of the event.
fn victim(
    cfg: &[i32],
    records: &[u8],
    memory: &[u8],
    payload_bytes: usize,
    event: EventNumber,
) -> Option<Place>
    requires { (EventsFit payload_bytes memory.now) × (event.0 < most_events) }
    ensures { result
        ≡ victim_place (priority_of cfg.now) (quiet_in records.now) event.0
        (entries_of payload_bytes memory.now) }
{
    match place_of_greatest(cfg, memory, payload_bytes, event) {
        Some(place) => Some(place),
        None => place_of_resting(cfg, records, memory, payload_bytes, event),
    }
}

// "count up by one, at most 255"
fn one_more(count: u8) -> u8
    ensures { result ≡ min 255 (suc count) }
{
    if count < 255 { count + 1 } else { 255 }
}

// The first frame of the entry at a place, as long as the buffer: its bytes are needed after the gap has closed.
fn copy_first(memory: &[u8], payload_bytes: usize, place: Place, first: &mut [u8])
    requires { (PlaceFits payload_bytes memory.now place.0) × (length first.old ≤ payload_bytes) }
    ensures { first.new
        ≡ first_frame (length first.old)
        (at_place place.0 (entries_of payload_bytes memory.now)).payload }
{
    let payload = payload_at(memory, payload_bytes, place);
    let frame_bytes = first.len();
    writing::copy(&payload[..frame_bytes], first);
}

// Rule 1: "e has an entry: count up by one, at most 255; frame replaced; the entry moves to the end (newest).";
// document 02, W6: "A repeat replaces only the latest."
fn renew(memory: &mut [u8], payload_bytes: usize, place: Place, event: EventNumber, frame: &[u8])
    requires { (PlaceFits payload_bytes memory.old place.0) ×
        ((event.0 < 65536) × (length frame.now + length frame.now ≡ payload_bytes)) }
    ensures { memory.new
        ≡ renewed_at payload_bytes place.0 event.0 frame.now memory.old }
{
    let count = one_more(count_at(memory, payload_bytes, place));
    let mut kept = [0; manual::MOST_FRAME];
    let first = &mut kept[..frame.len()];
    copy_first(memory, payload_bytes, place, first);
    replace(memory, payload_bytes, place, event, count, first, frame);
}

// Rule 3: "The victim is taken out, e appended with count 1."
fn displace(
    memory: &mut [u8],
    payload_bytes: usize,
    place: Place,
    event: EventNumber,
    frame: &[u8],
) -> StoreAnswer
    requires { (PlaceFits payload_bytes memory.old place.0) ×
        ((event.0 < 65536) × (length frame.now + length frame.now ≡ payload_bytes)) }
    ensures { left_with memory.new result
        ≡ left_with
        (replaced payload_bytes place.0 event.0 1 (payload_of frame.now) memory.old)
        (displacing (at_place place.0 (entries_of payload_bytes memory.old))) }
{
    let out = event_at(memory, payload_bytes, place);
    replace(memory, payload_bytes, place, event, 1, frame, frame);
    StoreAnswer::Displaced(out)
}

// Rules 2 to 4: the event has no entry.
fn admit(
    cfg: &[i32],
    records: &[u8],
    memory: &mut [u8],
    payload_bytes: usize,
    event: EventNumber,
    frame: &[u8],
) -> StoreAnswer
    requires { (MayStore cfg.now memory.old event.0 frame.now)
        × (payload_bytes ≡ entry_frames cfg.now) }
    ensures { left_with memory.new result
        ≡ admits (places cfg.now) (entry_frames cfg.now) (priority_of cfg.now)
        (quiet_in records.now) event.0 frame.now
        (entries_of (entry_frames cfg.now) memory.old) }
{
    if entry_count(memory) < config::places(cfg) {
        append(memory, payload_bytes, event, 1, frame, frame);
        return StoreAnswer::Added;
    }
    match victim(cfg, records, memory, payload_bytes, event) {
        Some(place) => displace(memory, payload_bytes, place, event, frame),
        None => StoreAnswer::NotStored,
    }
}

// A fresh failure of the event with the lent frame, by rules 1 to 4.
pub fn store(
    cfg: &[i32],
    records: &[u8],
    memory: &mut [u8],
    event: EventNumber,
    frame: &[u8],
) -> StoreAnswer
    requires { MayStore cfg.now memory.old event.0 frame.now }
    ensures { left_with memory.new result
        ≡ stores (places cfg.now) (entry_frames cfg.now) (priority_of cfg.now)
        (quiet_in records.now) event.0 frame.now
        (entries_of (entry_frames cfg.now) memory.old) }
{
    let payload_bytes = entry_frames(cfg);
    match place_of(memory, payload_bytes, event) {
        Some(place) => {
            renew(memory, payload_bytes, place, event, frame);
            StoreAnswer::Renewed
        }
        None => admit(cfg, records, memory, payload_bytes, event, frame),
    }
}

// "event numbers below n", "occurrence ≥ 1", "each entry's event has bit 5 set"
fn entry_ok(events: usize, records: &[u8], event: EventNumber, count: u8) -> bool
    requires { events ≤ most_events }
    ensures { result ≡ sound_numbers events records.now event.0 count }
{
    if event.0 < events {
        (1 <= count) & readings::has_failed(records, event)
    } else {
        false
    }
}

// Whether each entry is so.
fn each_ok(events: usize, payload_bytes: usize, memory: &[u8], records: &[u8]) -> bool
    requires { (events ≤ most_events) × EntriesFit payload_bytes memory.now }
    ensures { result
        ≡ all_of (sound_entry events records.now) (entries_of payload_bytes memory.now) }
{
    for i in 0..entry_count(memory) {
        let event = event_at(memory, payload_bytes, Place(i));
        let count = count_at(memory, payload_bytes, Place(i));
        if !entry_ok(events, records, event, count) {
            return false;
        }
    }
    true
}

// "no two equal": from the last entry to the first, each entry's event is marked as seen.
fn none_twice(memory: &[u8], payload_bytes: usize) -> bool
    requires { EventsFit payload_bytes memory.now }
    ensures { result ≡ no_twice (entries_of payload_bytes memory.now) }
{
    let mut seen = [false; manual::MOST_EVENTS];
    let mut once = true;
    for i in (0..entry_count(memory)).rev() {
        let event = event_at(memory, payload_bytes, Place(i));
        let e = event.0;
        once = once & !seen[e];
        seen[e] = true;
    }
    once
}

// The number of entries and the entries are as a well-formed memory of so many places has them. Any bytes may be
// judged, of any number.
pub fn entries_ok(
    events: usize,
    places: usize,
    payload_bytes: usize,
    used: &[u8],
    records: &[u8],
) -> bool
    requires { Small events places payload_bytes }
    ensures { result ≡ used_ok events places payload_bytes records.now used.now }
{
    if used.len() == 0 {
        return false;
    }
    if places < entry_count(used) {
        return false;
    }
    if used.len() != bytes_in_use(used, payload_bytes) {
        return false;
    }
    if !each_ok(events, payload_bytes, used, records) {
        return false;
    }
    none_twice(used, payload_bytes)
}

// "the bytes after the last entry are 0"
pub fn all_zero(bytes: &[u8]) -> bool
    ensures { result ≡ zeros bytes.now }
{
    let mut zero = true;
    for &byte in bytes {
        zero = zero & (byte == 0);
    }
    zero
}

// The memory is as a well-formed state has it. Any block and any records may be judged.
pub fn memory_ok(
    events: usize,
    places: usize,
    payload_bytes: usize,
    memory: &[u8],
    records: &[u8],
) -> bool
    requires { Small events places payload_bytes }
    ensures { result ≡ block_ok events places payload_bytes records.now memory.now }
{
    if memory.len() != memory_length(places, payload_bytes) {
        return false;
    }
    if places < entry_count(memory) {
        return false;
    }
    let end = bytes_in_use(memory, payload_bytes);
    entries_ok(events, places, payload_bytes, &memory[..end], records) & all_zero(&memory[end..])
}
