// Document 01, "Diagnostic requests", with the sub-functions of document 02, W1 and W4.
#![tactic(auto)]

ghost use Rattle.std.specs.Prelude.{◌≡◌, true, cond, List, [], ◌∷◌, ◌+◌, ◌*◌, ◌%◌, ◌<◌, ◌≤◌, ℤ, pos, length, get_or, eqb, ltb};
ghost use Rattle.manual.specs.Words.{count_below, three_at, between, twos_complement};
ghost use Rattle.manual.specs.Configuration.{Configuration, most_events, events, entry_frames, config_ok};
ghost use Rattle.manual.specs.State.{State, status_byte};
ghost use Rattle.manual.specs.Lent.{as_found, as_lent, keeps_loans};
ghost use Rattle.manual.specs.Answers.{lent_room, lent_both, ◌if◌, first_that_applies, of_length, leaves};
ghost use Rattle.manual.specs.Calls.{begins};
ghost use Rattle.manual.specs.Diagnostics.{negative, reply_bytes, served, sub_function, line, mask_of, suppresses};
ghost use Rattle.manual.specs.Diagnostics.{matches, is_near, counter_byte, number_by_mask, list_by_mask, list_events, list_near};
ghost use Rattle.manual.specs.Diagnostics.{is_record, event_asked, details_told, behind_status, shown_bytes};
ghost use Rattle.manual.specs.Diagnostics.{service19, service14, served_by, sent};
ghost use Rattle.manual.specs.Diagnostics.{replied, asks_clear, request_rules, request_reply};
ghost use Rattle.manual.specs.Memory.{entries_of, entry_for};
ghost use Rattle.config.specs.Search.{search_is};
ghost use Rattle.counts.specs.Near.{AreFive};
ghost use Rattle.judgement.specs.Checks.{check_number};
ghost use Rattle.memory.specs.Places.{at_place};
ghost use Rattle.writing.specs.Writing.{written, append};
ghost use Rattle.diagnostics.specs.Replies.{InStatesWith, holding, sent_is, asks, line_if_asked, line_with};
ghost use Rattle.diagnostics.specs.Replies.{lines_asked};
ghost use Rattle.diagnostics.specs.Replies.{EventFits, BytesFit, Accepted, MayList, sub_function_outcome, listing};
ghost use Rattle.diagnostics.specs.Replies.{TurnBy};
ghost use Rattle.diagnostics.specs.Showing.{remembering, number_of, tells, told_length, shown_length, shows_one};
ghost use Rattle.diagnostics.specs.Showing.{MayTell, MayShow, MayRead, shown_reply};
ghost use Rattle.diagnostics.specs.Replies.{clear_request_is, service_is, clears14, code_where, code_of14};
ghost use Rattle.diagnostics.specs.Replies.{left_to_clear, clears_past, MayAnswer, sent_with, answered};
ghost use Rattle.clearing.specs.Covered.{MayClear};

use manual::{EventNumber, Lent, LentMut, Place, Refusal};

// Three things are called 14: the service that clears,
const SERVICE_14: u8 = 0x14;

// the sub-function of service 19 that lists the events near a fault,
const SUB_FUNCTION_14: u8 = 0x14;

// and the negative code of a reply that is longer than the room.
const CODE_14: u8 = 0x14;

// The events that a reply lists or counts: all, those that match a mask, or those that are near a fault. A line of
// these shows the counter, any other the status.
#[derive(Clone, Copy)]
enum Asked {
    All,
    Matching(u8),
    Near,
}

// What a reply shows of an event's entry: its frames, or its details.
#[derive(Clone, Copy)]
enum Told {
    Frame,
    Details,
}

// What a sub-function of service 19 does: write its positive reply, write nothing, or reply with this negative code.
#[derive(Clone, Copy)]
enum Turn {
    Write,
    Suppressed,
    Negative(u8),
}

// What is left to do once the reply stands in the room: nothing, and this is its length; or its length is 1, and the
// events of this trouble code are still to be cleared.
#[derive(Clone, Copy)]
enum Service {
    Replied(usize),
    Clear(u32),
}

// ---- reading the request

// A byte of the request; 0 past its end.
fn byte_of(request: &[u8], index: usize) -> u8
    ensures { result ≡ get_or request.now index 0 }
{
    if index < request.len() {
        request[index]
    } else {
        0
    }
}

// "With the top bit set a positive reply has length 0"
fn suppresses(request: &[u8]) -> bool
    ensures { (cfg : Configuration) → result ≡ suppresses cfg request.now }
{
    128 <= byte_of(request, 1)
}

// "The second byte less its top bit is the sub-function"
fn sub_function_of(request: &[u8]) -> u8
    ensures { result ≡ get_or request.now 1 0 % 128 }
{
    byte_of(request, 1) % 128
}

// The mask of "01 mask" and "02 mask".
fn mask_of(request: &[u8]) -> u8
    ensures { (cfg : Configuration) → result ≡ mask_of cfg request.now }
{
    byte_of(request, 2)
}

// "the three bytes are a trouble code": those from `at` on.
fn code_in(request: &[u8], at: usize) -> u32
    requires { at ≤ 2 }
    ensures { result ≡ three_at at request.now }
{
    let high = byte_of(request, at) as u32;
    let middle = byte_of(request, at + 1) as u32;
    let low = byte_of(request, at + 2) as u32;
    high * 65536 + middle * 256 + low
}

// "The only record numbers are 01 and FF."
fn is_record(number: u8) -> bool
    ensures { (cfg : Configuration) → result ≡ is_record cfg number }
{
    (number == 0x01) | (number == 0xFF)
}

// The event that `19 04` or `19 06` asks for; nothing where its code or its record is unknown.
fn event_asked(cfg: &[i32], request: &[u8]) -> Option<EventNumber>
    requires { config_ok cfg.now ≡ true }
    ensures { (s : State) → search_is result ≡ event_asked cfg.now request.now s }
{
    if is_record(byte_of(request, 5)) {
        return config::find_code(cfg, code_in(request, 2));
    }
    None
}

// ---- the events that a reply lists or counts

// "An event matches if status and mask share a set bit."
fn matches(records: &[u8], event: EventNumber, mask: u8) -> bool
    ensures { (cfg : Configuration) (d : List ℤ)
        → result ≡ matches cfg mask (holding records.now d) event.0 }
{
    let status = status::status_of(records, event);
    status.0 & mask != 0
}

// "counter is 1 to 126"
fn tells_near(counter: i64) -> bool
    ensures { result ≡ between (pos 1) (pos 126) counter }
{
    (1 <= counter) & (counter <= 126)
}

// "each event whose counter is 1 to 126"
fn is_near(cfg: &[i32], state: &Lent, event: EventNumber) -> bool
    requires { event.0 < most_events }
    ensures { result
        ≡ is_near cfg.now (holding state.now.records.now state.now.debounce.now) event.0 }
{
    tells_near(counter::counter_of(cfg, state.records, state.debounce, event))
}

// Whether a reply lists or counts the event.
fn is_asked(cfg: &[i32], state: &Lent, event: EventNumber, asked: Asked) -> bool
    requires { event.0 < most_events }
    ensures { result
        ≡ asks cfg.now asked (holding state.now.records.now state.now.debounce.now) event.0 }
{
    match asked {
        Asked::All => true,
        Asked::Matching(mask) => matches(state.records, event, mask),
        Asked::Near => is_near(cfg, state, event),
    }
}

// "counter byte (two's complement)", of a counter that is listed.
fn counter_byte(counter: i64) -> u8
    requires { between (pos 1) (pos 126) counter ≡ true }
    ensures { result ≡ twos_complement counter }
{
    counter as u8
}

// The number of events that are asked for.
fn number_asked(cfg: &[i32], state: &Lent, asked: Asked) -> usize
    requires { config_ok cfg.now ≡ true }
    ensures { result
        ≡ count_below (events cfg.now)
        (asks cfg.now asked (holding state.now.records.now state.now.debounce.now)) }
{
    let n = config::events(cfg);
    let mut number = 0;
    for event in 0..n {
        number = writing::one_more_if(is_asked(cfg, state, EventNumber(event), asked), number);
    }
    number
}

// ---- writing

// "Negative reply: 7F, request's first byte, code"
fn negative(service: u8, code: u8, room: &mut [u8]) -> usize
    requires { 3 ≤ length room.old }
    ensures { (cfg : Configuration) (s : State)
        → sent_is result room.new s
        ≡ sent cfg (reply_bytes service (negative code)) (lent_room room.old) s }
{
    writing::write(room, 0, &[0x7F, service, code])
}

// "trouble code (3 bytes high first) and status", or the counter byte
const LINE_WIDTH: usize = 4;

fn write_line(cfg: &[i32], event: EventNumber, byte: u8, room: &mut [u8], at: usize) -> usize
    requires { EventFits cfg.now event.0 at (line cfg.now (λ e. byte) event.0) room.old }
    ensures { written result room.new
        ≡ append (line cfg.now (λ e. byte) event.0) (written at room.old) }
{
    let code = config::code_within(cfg, event);
    let high = (code / 65536) as u8;
    let middle = (code / 256 % 256) as u8;
    let low = (code % 256) as u8;
    writing::write(room, at, &[high, middle, low, byte])
}

// The byte of the event's line, where its status and the mask share a set bit.
fn byte_where_matching(records: &[u8], event: EventNumber, mask: u8) -> Option<u8>
    ensures { (cfg : Configuration) (d : List ℤ)
        → line_with cfg event.0 result
        ≡ cond (matches cfg mask (holding records.now d) event.0)
        (line cfg (status_byte (holding records.now d)) event.0) [] }
{
    if matches(records, event, mask) {
        return Some(status::status_of(records, event).0);
    }
    None
}

// The byte of the event's line, where it is near a fault.
fn byte_where_near(cfg: &[i32], state: &Lent, event: EventNumber) -> Option<u8>
    requires { event.0 < most_events }
    ensures { line_with cfg.now event.0 result
        ≡ cond (is_near cfg.now (holding state.now.records.now state.now.debounce.now) event.0)
        (line cfg.now
        (counter_byte cfg.now (holding state.now.records.now state.now.debounce.now)) event.0) [] }
{
    let counter = counter::counter_of(cfg, state.records, state.debounce, event);
    if tells_near(counter) {
        return Some(counter_byte(counter));
    }
    None
}

// The byte that the event's line shows, where the event is asked for.
fn line_byte(cfg: &[i32], state: &Lent, event: EventNumber, asked: Asked) -> Option<u8>
    requires { event.0 < most_events }
    ensures { line_with cfg.now event.0 result
        ≡ line_if_asked cfg.now asked (holding state.now.records.now state.now.debounce.now)
        event.0 }
{
    match asked {
        Asked::All => Some(status::status_of(state.records, event).0),
        Asked::Matching(mask) => byte_where_matching(state.records, event, mask),
        Asked::Near => byte_where_near(cfg, state, event),
    }
}

// The line of an event that is asked for, and nothing of another.
fn write_line_if_asked(
    cfg: &[i32],
    state: &Lent,
    event: EventNumber,
    asked: Asked,
    room: &mut [u8],
    at: usize,
) -> usize
    requires { EventFits cfg.now event.0 at
        (line_if_asked cfg.now asked (holding state.now.records.now state.now.debounce.now) event.0) room.old }
    ensures { written result room.new
        ≡ append
        (line_if_asked cfg.now asked (holding state.now.records.now state.now.debounce.now) event.0)
        (written at room.old) }
{
    match line_byte(cfg, state, event, asked) {
        Some(byte) => write_line(cfg, event, byte, room, at),
        None => at,
    }
}

// The lines of the events that are asked for, "rising".
fn write_lines(cfg: &[i32], state: &Lent, asked: Asked, room: &mut [u8], at: usize) -> usize
    requires { BytesFit cfg.now at
        (lines_asked cfg.now asked (holding state.now.records.now state.now.debounce.now)) room.old }
    ensures { written result room.new
        ≡ append (lines_asked cfg.now asked (holding state.now.records.now state.now.debounce.now))
        (written at room.old) }
{
    let n = config::events(cfg);
    let mut next = at;
    for event in 0..n {
        next = write_line_if_asked(cfg, state, EventNumber(event), asked, room, next);
    }
    next
}

// ---- service 19, a function for each sub-function

// The order in which these tests count. "Length must be 3, 3, 2: else 13. … With the top bit set a positive reply has
// length 0 and the room stays untouched. Otherwise one longer than the room: code 14."
fn turn_of(wrong_length: bool, suppressed: bool, too_long: bool) -> Turn
    ensures { TurnBy wrong_length suppressed too_long result }
{
    if wrong_length {
        return Turn::Negative(0x13);
    }
    if suppressed {
        return Turn::Suppressed;
    }
    if too_long {
        return Turn::Negative(CODE_14);
    }
    Turn::Write
}

// "01 mask: `59 01 FF 01` and the number of matching events, 2 bytes high first."
fn number_by_mask(cfg: &[i32], state: &Lent, request: &[u8], room: &mut [u8]) -> usize
    requires { Accepted cfg.now room.old }
    ensures { InStatesWith state.now
        (λ s. sent_is result room.new s
        ≡ sub_function_outcome cfg.now (sub_function 0x01 3 (number_by_mask cfg.now))
        request.now room.old s) }
{
    match turn_of(request.len() != 3, suppresses(request), room.len() < 6) {
        Turn::Negative(code) => negative(0x19, code, room),
        Turn::Suppressed => 0,
        Turn::Write => {
            let number = number_asked(cfg, state, Asked::Matching(mask_of(request)));
            let high = (number / 256) as u8;
            let low = (number % 256) as u8;
            writing::write(room, 0, &[0x59, 0x01, 0xFF, 0x01, high, low])
        }
    }
}

// Whether the lines of the events that are asked for, behind a head of so many bytes, are longer than the room. The
// events are counted only where the room does not hold a line of each.
fn is_too_long(cfg: &[i32], state: &Lent, asked: Asked, head: usize, room: usize) -> bool
    requires { (config_ok cfg.now ≡ true) × (head ≤ 3) }
    ensures { result
        ≡ ltb room
        (head +
        4 *
        count_below (events cfg.now)
        (asks cfg.now asked (holding state.now.records.now state.now.debounce.now))) }
{
    if head + LINE_WIDTH * config::events(cfg) <= room {
        return false;
    }
    room < head + LINE_WIDTH * number_asked(cfg, state, asked)
}

// The head of the reply, "then per matching event trouble code (3 bytes high first) and status, rising", or "all events
// likewise", or those that are near a fault with their counters.
fn list_asked(
    cfg: &[i32],
    state: &Lent,
    request: &[u8],
    head: &[u8],
    size: usize,
    asked: Asked,
    room: &mut [u8],
) -> usize
    requires { MayList cfg.now head.now room.old }
    ensures { InStatesWith state.now
        (λ s. sent_is result room.new s
        ≡ sub_function_outcome cfg.now (listing cfg.now head.now size asked)
        request.now room.old s) }
{
    let too_long = is_too_long(cfg, state, asked, head.len(), room.len());
    match turn_of(request.len() != size, suppresses(request), too_long) {
        Turn::Negative(code) => negative(0x19, code, room),
        Turn::Suppressed => 0,
        Turn::Write => {
            let at = writing::write(room, 0, head);
            write_lines(cfg, state, asked, room, at)
        }
    }
}

// "02 mask: `59 02 FF`, then per matching event trouble code (3 bytes high first) and status, rising."
fn list_by_mask(cfg: &[i32], state: &Lent, request: &[u8], room: &mut [u8]) -> usize
    requires { Accepted cfg.now room.old }
    ensures { InStatesWith state.now
        (λ s. sent_is result room.new s
        ≡ sub_function_outcome cfg.now (sub_function 0x02 3 (list_by_mask cfg.now))
        request.now room.old s) }
{
    let asked = Asked::Matching(mask_of(request));
    list_asked(cfg, state, request, &[0x59, 0x02, 0xFF], 3, asked, room)
}

// "0A: `59 0A FF`, then all events likewise."
fn list_all(cfg: &[i32], state: &Lent, request: &[u8], room: &mut [u8]) -> usize
    requires { Accepted cfg.now room.old }
    ensures { InStatesWith state.now
        (λ s. sent_is result room.new s
        ≡ sub_function_outcome cfg.now (sub_function 0x0A 2 (list_events cfg.now)) request.now
        room.old s) }
{
    list_asked(
        cfg,
        state,
        request,
        &[0x59, 0x0A, 0xFF],
        2,
        Asked::All,
        room,
    )
}

// Document 02, W1: "`59 14`, then trouble code and counter byte (two's complement) for each event whose counter is 1 to
// 126, rising".
fn list_near(cfg: &[i32], state: &Lent, request: &[u8], room: &mut [u8]) -> usize
    requires { Accepted cfg.now room.old }
    ensures { InStatesWith state.now
        (λ s. sent_is result room.new s
        ≡ sub_function_outcome cfg.now (sub_function 0x14 2 (list_near cfg.now))
        request.now room.old s) }
{
    list_asked(
        cfg,
        state,
        request,
        &[0x59, SUB_FUNCTION_14],
        2,
        Asked::Near,
        room,
    )
}

// ---- service 19: the event of one trouble code, document 02, W4

// The number of the sub-function.
fn number_of(told: Told) -> u8
    ensures { result ≡ number_of told }
{
    match told {
        Told::Frame => 0x04,
        Told::Details => 0x06,
    }
}

// How many bytes a reply shows of an entry: its two frames of F bytes, or "occurrence count, K, h, g".
fn told_length(cfg: &[i32], told: Told) -> usize
    ensures { result ≡ told_length cfg.now told }
{
    match told {
        Told::Frame => memory::entry_frames(cfg),
        Told::Details => 4,
    }
}

// The length of a reply that shows an event with the entry at this place, or without one.
fn shown_length(cfg: &[i32], own: Option<Place>, told: Told) -> usize
    requires { config_ok cfg.now ≡ true }
    ensures { result ≡ shown_length cfg.now told own }
{
    match own {
        Some(_) => 7 + told_length(cfg, told),
        None => 6,
    }
}

// "occurrence count, K, h, g"
fn write_details(
    cfg: &[i32],
    state: &Lent,
    event: EventNumber,
    place: Place,
    room: &mut [u8],
    at: usize,
) -> usize
    requires { MayTell cfg.now state.now.records.now state.now.memory.now event.0 place.0 at 4 room.old }
    ensures { written result room.new
        ≡ append
        (details_told cfg.now (remembering state.now.records.now state.now.memory.now) event.0
        (at_place place.0 (entries_of (entry_frames cfg.now) state.now.memory.now)))
        (written at room.old) }
{
    let count = memory::count_at(state.memory, memory::entry_frames(cfg), place);
    let r = status::read_record(state.records, event);
    writing::write(room, at, &[count, r.k, r.h, r.g])
}

// What a reply shows of the entry at a place.
fn write_told(
    cfg: &[i32],
    state: &Lent,
    event: EventNumber,
    place: Place,
    told: Told,
    room: &mut [u8],
    at: usize,
) -> usize
    requires { MayTell cfg.now state.now.records.now state.now.memory.now event.0 place.0 at
        (told_length cfg.now told) room.old }
    ensures { written result room.new
        ≡ append
        (tells cfg.now told (remembering state.now.records.now state.now.memory.now) event.0
        (at_place place.0 (entries_of (entry_frames cfg.now) state.now.memory.now)))
        (written at room.old) }
{
    match told {
        Told::Frame => {
            let payload = memory::payload_at(state.memory, memory::entry_frames(cfg), place);
            writing::write(room, at, payload)
        }
        Told::Details => write_details(cfg, state, event, place, room, at),
    }
}

// "then if the event has an entry `01` and" what is shown of it. "Without an entry the reply ends after the status."
fn write_behind_status(
    cfg: &[i32],
    state: &Lent,
    event: EventNumber,
    own: Option<Place>,
    told: Told,
    room: &mut [u8],
    at: usize,
) -> usize
    requires { MayShow cfg.now state.now.records.now state.now.memory.now event.0 told own room.old × (at ≡ 6) }
    ensures { written result room.new
        ≡ append
        (behind_status cfg.now
        (tells cfg.now told (remembering state.now.records.now state.now.memory.now) event.0)
        (entry_for event.0 (entries_of (entry_frames cfg.now) state.now.memory.now)))
        (written at room.old) }
{
    match own {
        Some(place) => {
            let next = writing::write(room, at, &[0x01]);
            write_told(cfg, state, event, place, told, room, next)
        }
        None => at,
    }
}

// "`59 04`, code, status, then …", "`59 06`, code, status, then …"
fn write_shown(
    cfg: &[i32],
    state: &Lent,
    event: EventNumber,
    own: Option<Place>,
    told: Told,
    room: &mut [u8],
) -> usize
    requires { MayShow cfg.now state.now.records.now state.now.memory.now event.0 told own room.old }
    ensures { written result room.new
        ≡ append
        (shown_bytes cfg.now (number_of told) (tells cfg.now told) event.0
        (remembering state.now.records.now state.now.memory.now))
        (written 0 room.old) }
{
    let at = writing::write(room, 0, &[0x59, number_of(told)]);
    let status = status::status_of(state.records, event).0;
    let next = write_line(cfg, event, status, room, at);
    write_behind_status(cfg, state, event, own, told, room, next)
}

// The reply that shows an event, as the request and the room let it go. Its length and its code were judged before.
fn show_event(
    cfg: &[i32],
    state: &Lent,
    request: &[u8],
    event: EventNumber,
    told: Told,
    room: &mut [u8],
) -> usize
    requires { MayRead cfg.now state.now.records.now state.now.memory.now room.old × (event.0 < events cfg.now) }
    ensures { InStatesWith state.now
        (λ s. sent_is result room.new s
        ≡ shown_reply cfg.now told request.now event.0 room.old s) }
{
    let own = memory::place_of(state.memory, memory::entry_frames(cfg), event);
    let too_long = room.len() < shown_length(cfg, own, told);
    match turn_of(false, suppresses(request), too_long) {
        Turn::Negative(code) => negative(0x19, code, room),
        Turn::Suppressed => 0,
        Turn::Write => write_shown(cfg, state, event, own, told, room),
    }
}

// "each of length 6"
const SHOW_LENGTH: usize = 6;

// `19 04` and `19 06`. "Check order after length: unknown code or record 31, then 14."
fn show(cfg: &[i32], state: &Lent, request: &[u8], told: Told, room: &mut [u8]) -> usize
    requires { MayRead cfg.now state.now.records.now state.now.memory.now room.old }
    ensures { InStatesWith state.now
        (λ s. sent_is result room.new s
        ≡ sub_function_outcome cfg.now (shows_one cfg.now told) request.now
        room.old s) }
{
    if request.len() != SHOW_LENGTH {
        return negative(0x19, 0x13, room);
    }
    match event_asked(cfg, request) {
        Some(event) => show_event(cfg, state, request, event, told, room),
        None => negative(0x19, 0x31, room),
    }
}

// Writes the reply of service 19, and answers its length. "19: length 1: code 13. … not 01, 02, 0A: code 12.", and not
// 14, 04, 06.
fn reply_19(cfg: &[i32], state: &Lent, request: &[u8], room: &mut [u8]) -> usize
    requires { MayRead cfg.now state.now.records.now state.now.memory.now room.old }
    ensures { InStatesWith state.now
        (λ s. sent_is result room.new s
        ≡ replied cfg.now 0x19 (lent_room room.old)
        (served (service19 cfg.now request.now (length room.old) s) s)) }
{
    if request.len() == 1 {
        return negative(0x19, 0x13, room);
    }
    let sub_function = sub_function_of(request);
    match sub_function {
        0x01 => number_by_mask(cfg, state, request, room),
        0x02 => list_by_mask(cfg, state, request, room),
        0x0A => list_all(cfg, state, request, room),
        SUB_FUNCTION_14 => list_near(cfg, state, request, room),
        0x04 => show(cfg, state, request, Told::Frame, room),
        0x06 => show(cfg, state, request, Told::Details, room),
        _ => negative(0x19, 0x12, room),
    }
}

// ---- service 14

// "14: length must be 4 (else 13); the three bytes are a trouble code; unknown: code 31; else clear and `54`."
fn clear_request(cfg: &[i32], request: &[u8]) -> Result<u32, u8>
    requires { config_ok cfg.now ≡ true }
    ensures { ((s : State)
        → clear_request_is cfg.now result s ≡ service14 cfg.now request.now s) ×
        (code_of14 cfg.now result
        ≡ code_where cfg.now (clears14 cfg.now request.now)
        request.now) }
{
    if request.len() != 4 {
        return Err(0x13);
    }
    let code = code_in(request, 1);
    if clearing::is_unknown(cfg, code) {
        return Err(0x31);
    }
    Ok(code)
}

// Writes the reply of service 14. The clear itself is left to the caller.
fn reply_14(cfg: &[i32], request: &[u8], room: &mut [u8]) -> Service
    requires { Accepted cfg.now room.old }
    ensures { ((s : State)
        → service_is cfg.now result room.new s
        ≡ replied cfg.now 0x14 (lent_room room.old)
        (service14 cfg.now request.now s)) ×
        (left_to_clear cfg.now result
        ≡ code_where cfg.now (clears14 cfg.now request.now)
        request.now) }
{
    match clear_request(cfg, request) {
        Ok(code) => {
            writing::write(room, 0, &[0x54]);
            Service::Clear(code)
        }
        Err(code) => Service::Replied(negative(SERVICE_14, code, room)),
    }
}

// ---- the request

// Writes the reply to an accepted request, and says what is left to do. "First byte other than 19 or 14: code 11."
fn serve(cfg: &[i32], state: &Lent, request: &[u8], room: &mut [u8]) -> Service
    requires { MayRead cfg.now state.now.records.now state.now.memory.now room.old }
    ensures { (InStatesWith state.now
        (λ s. service_is cfg.now result room.new s
        ≡ replied cfg.now (get_or request.now 0 0) (lent_room room.old)
        (served_by cfg.now request.now (length room.old) s))) ×
        (left_to_clear cfg.now result
        ≡ code_where cfg.now (asks_clear cfg.now request.now)
        request.now) }
{
    let service = byte_of(request, 0);
    match service {
        0x19 => Service::Replied(reply_19(cfg, state, request, room)),
        SERVICE_14 => reply_14(cfg, request, room),
        _ => Service::Replied(negative(service, 0x11, room)),
    }
}

// A request that nothing refuses: its reply, then the clear where it asks for one. The counts rise by the entries that
// the clear takes out. Answers the length of the reply.
fn accept(
    cfg: &[i32],
    state: &mut LentMut,
    request: &[u8],
    room: &mut [u8],
    counts: &mut [u32],
) -> usize
    requires { MayAnswer cfg.now request.now room.old counts.old (as_lent state.old) }
    ensures loans { keeps_loans state.old state.new }
    ensures promise { sent_with result room.new counts.new (as_lent state.new)
        ≡ answered cfg.now request.now room.old counts.old (as_lent state.old) }
{
    let service = serve(cfg, &state.as_found(), request, room);
    match service {
        Service::Replied(size) => size,
        Service::Clear(code) => {
            let rise = clearing::clear_covered(cfg, state, code);
            counts::raise(counts, rise);
            1
        }
    }
}

// "diagnostic request 7, 1"
fn judge_sizes(request: &[u8], room: &[u8]) -> Result<(), Refusal>
    ensures { check_number result
        ≡ first_that_applies
        ((7 if ltb (length room.now) 3) ∷ (1 if eqb (length request.now) 0) ∷ []) }
{
    if room.len() < 3 {
        return Err(Refusal::RoomTooSmall);
    }
    if request.len() == 0 {
        return Err(Refusal::BadArgument);
    }
    Ok(())
}

// "Every call begins 2, 3. Then: … diagnostic request 7, 1." `fits` says whether the counts have the right length.
fn judge_begin(
    cfg: &[i32],
    state: &Lent,
    fits: bool,
    request: &[u8],
    room: &[u8],
) -> Result<(), Refusal>
    ensures { check_number result
        ≡ first_that_applies
        (begins cfg.now (as_found state.now)
        fits ((7 if ltb (length room.now) 3) ∷ (1 if eqb (length request.now) 0) ∷ [])) }
{
    judgement::begin(cfg, state, fits)?;
    judge_sizes(request, room)
}

// Document 02, W7, of a "clearing diagnostic request": "refused with new number 12, checked last". Any other request
// adds nothing to the counts.
fn judge_limit(cfg: &[i32], state: &Lent, request: &[u8], counts: &[u32]) -> Result<(), Refusal>
    requires { (MayClear cfg.now (as_found state.now)) × (AreFive counts.now) }
    ensures { check_number result
        ≡ first_that_applies
        ((12 if clears_past cfg.now request.now counts.now (as_found state.now)) ∷ []) }
{
    if byte_of(request, 0) == SERVICE_14 {
        match clear_request(cfg, request) {
            Ok(code) => { rehearsal::limit_test(clearing::carries_past(cfg, state, code, counts)) }
            Err(_) => Ok(()),
        }
    } else {
        Ok(())
    }
}

// "The first that applies, in the call's order, is given."
fn judge(
    cfg: &[i32],
    state: &Lent,
    request: &[u8],
    room: &[u8],
    counts: &[u32],
) -> Result<(), Refusal>
    ensures { check_number result
        ≡ first_that_applies
        (request_rules cfg.now request.now (lent_both room.now counts.now) (as_found state.now)) }
{
    let fits = counts::fit(counts);
    judge_begin(cfg, state, fits, request, room)?;
    judge_limit(cfg, state, request, counts)
}

// The diagnostic request: writes the reply at the front of the room, and answers its length.
pub fn request(
    cfg: &[i32],
    state: &mut LentMut,
    request: &[u8],
    room: &mut [u8],
    counts: &mut [u32],
) -> Result<usize, Refusal>
    ensures loans { keeps_loans state.old state.new }
    ensures promise { leaves (of_length result) [] (lent_both room.new counts.new) (as_lent state.new)
        ≡ request_reply cfg.now request.now (lent_both room.old counts.old) (as_lent state.old) }
{
    judge(cfg, &state.as_found(), request, room, counts)?;
    Ok(accept(cfg, state, request, room, counts))
}
