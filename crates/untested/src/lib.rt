// Document 02, W10, "A page of untested signals": the calls that read the table of counts and the paint of an event,
// and the call that lists the grey events.
#![tactic(auto)]

ghost use Rattle.std.specs.Prelude.{◌≡◌, true, List, [], ◌∷◌, ℕ, ◌+◌, ltb, ℤ, length};
ghost use Rattle.manual.specs.declared.Board.{Board};
ghost use Rattle.manual.specs.Configuration.{config_ok};
ghost use Rattle.manual.specs.State.{lent};
ghost use Rattle.manual.specs.Lent.{as_found};
ghost use Rattle.manual.specs.Answers.{alone, lent_room, ◌if◌, first_that_applies, of_length, leaves};
ghost use Rattle.manual.specs.Untested.{table, is_grey, paint_of, grey_events, table_read, paint_read};
ghost use Rattle.manual.specs.Untested.{list_grey_rules, list_grey};
ghost use Rattle.judgement.specs.Checks.{check_number};
ghost use Rattle.judgement.specs.Fits.{RecordsFor};
ghost use Rattle.writing.specs.Writing.{written, append, filled};
ghost use Rattle.untested.specs.Page.{RowFits, Risen, OneMore, CountsBelow, holding, if_grey, EventWithin};
ghost use Rattle.untested.specs.Page.{MayWrite, MayList, table_told, paint_told};

use manual::{Board, EventNumber, Lent, Paint, Refusal};
use status::Status;

// ---- the table

// "a four by eight table of counts"
const COUNTS: usize = manual::CYCLES * manual::BITS;

// One more for each bit of the byte that is set, bit 0 first, in the row of the table that begins at `at`.
fn count_bits(counts: &mut [u16], at: usize, byte: u8)
    requires { RowFits at counts.old }
    ensures { Risen at byte 8 counts.old counts.new }
{
    let mut rest = byte;
    for count in counts[at..at + manual::BITS].iter_mut() {
        *count += (rest % 2) as u16;
        rest /= 2;
    }
}

// The counts of the events below this one become those of one event more: "the events of that cycle with the bit set".
fn count_event(cfg: &[i32], records: &[u8], event: EventNumber, counts: &mut [u16])
    requires { OneMore cfg.now records.now event.0 counts.old }
    ensures { CountsBelow cfg.now records.now (event.0 + 1) counts.new }
{
    let at = manual::BITS * config::cycle_within(cfg, event);
    let status = status::status_of(records, event);
    count_bits(counts, at, status.0);
}

// "Count, for each of the four cycles and each of the eight bits, the events of that cycle with the bit set": one pass
// over the events.
pub fn table_of(cfg: &[i32], records: &[u8]) -> [u16; COUNTS]
    requires { config_ok cfg.now ≡ true }
    ensures { (d : List ℤ) (m : List ℕ) (b : Board)
        → result ≡ table cfg.now (lent records.now d m b) }
{
    let n = config::events(cfg);
    let mut counts = [0; COUNTS];
    for event in 0..n {
        count_event(cfg, records, EventNumber(event), &mut counts);
    }
    counts
}

// Read table: 2, 3. A refusal answers no count.
pub fn read_table(cfg: &[i32], state: &Lent) -> Result<[u16; COUNTS], Refusal>
    ensures { table_told result (as_found state.now)
        ≡ table_read cfg.now alone
        (as_found state.now) }
{
    judgement::begin(cfg, state, true)?;
    Ok(table_of(cfg, state.records))
}

// ---- the paint

// "grey if bit 6 is set or its cycle is stopped"
fn is_grey(cfg: &[i32], records: &[u8], board: Board, event: EventNumber) -> bool
    requires { EventWithin cfg.now records.now event.0 }
    ensures { result ≡ is_grey cfg.now (holding records.now board) event.0 }
{
    let status = status::status_within(records, event);
    let runs = judgement::runs(board, config::cycle_within(cfg, event));
    status.contains(Status::TEST_NOT_COMPLETED_THIS_OPERATION_CYCLE) | !runs
}

// "grey if bit 6 is set or its cycle is stopped, else red if bit 0 is set, else live"
pub fn paint_of(cfg: &[i32], records: &[u8], board: Board, event: EventNumber) -> Paint
    requires { EventWithin cfg.now records.now event.0 }
    ensures { result ≡ paint_of cfg.now (holding records.now board) event.0 }
{
    let status = status::status_of(records, event);
    if is_grey(cfg, records, board, event) {
        return Paint::Grey;
    }
    if status.contains(Status::TEST_FAILED) {
        return Paint::Red;
    }
    Paint::Live
}

// Read paint: 2, 3, 4. A refusal paints grey.
pub fn read_paint(cfg: &[i32], state: &Lent, event: EventNumber) -> Result<Paint, Refusal>
    ensures { paint_told result (as_found state.now)
        ≡ paint_read cfg.now event.0 alone
        (as_found state.now) }
{
    queries::judge(cfg, state, event)?;
    Ok(paint_of(cfg, state.records, state.board, event))
}

// ---- the list

// The number of grey events.
fn number_grey(cfg: &[i32], records: &[u8], board: Board) -> usize
    requires { RecordsFor cfg.now records.now }
    ensures { result ≡ length (grey_events cfg.now (holding records.now board)) }
{
    let n = config::events(cfg);
    let mut number = 0;
    for event in 0..n {
        number = writing::one_more_if(is_grey(cfg, records, board, EventNumber(event)), number);
    }
    number
}

// Whether a list of so many numbers is too short for the grey events. They are counted only where it is shorter than
// all events.
fn is_too_short(cfg: &[i32], records: &[u8], board: Board, numbers: usize) -> bool
    requires { RecordsFor cfg.now records.now }
    ensures { result
        ≡ ltb numbers (length (grey_events cfg.now (holding records.now board))) }
{
    if config::events(cfg) <= numbers {
        return false;
    }
    numbers < number_grey(cfg, records, board)
}

// Writes the event's number where it is grey, and answers the place behind it.
fn write_if_grey(
    cfg: &[i32],
    records: &[u8],
    board: Board,
    event: EventNumber,
    list: &mut [u16],
    at: usize,
) -> usize
    requires { MayWrite cfg.now (holding records.now board) event.0 at list.old }
    ensures { written result list.new
        ≡ append (if_grey cfg.now (holding records.now board) event.0)
        (written at list.old) }
{
    if is_grey(cfg, records, board, event) {
        list[at] = event.0 as u16;
        return at + 1;
    }
    at
}

// "List the grey events in rising order, complete": writes them from the front, and answers how many.
fn write_grey(cfg: &[i32], records: &[u8], board: Board, list: &mut [u16]) -> usize
    requires { MayList cfg.now (holding records.now board) list.old }
    ensures { written result list.new
        ≡ filled (grey_events cfg.now (holding records.now board)) list.old }
{
    let n = config::events(cfg);
    let mut next = 0;
    for event in 0..n {
        next = write_if_grey(cfg, records, board, EventNumber(event), list, next);
    }
    next
}

// "with 7 when it is too short"
#[tactic(auto, unfolding(manual::specs::Answers::first_that_applies))]
fn seven(too_short: bool) -> Result<(), Refusal>
    ensures { check_number result ≡ first_that_applies ((7 if too_short) ∷ []) }
{
    if too_short {
        return Err(Refusal::RoomTooSmall);
    }
    Ok(())
}

// 2, 3, 7
fn judge_list(cfg: &[i32], state: &Lent, list: &[u16]) -> Result<(), Refusal>
    ensures { check_number result
        ≡ first_that_applies
        (list_grey_rules cfg.now (lent_room list.now)
        (as_found state.now)) }
{
    judgement::begin(cfg, state, true)?;
    seven(is_too_short(cfg, state.records, state.board, list.len()))
}

// List grey: 2, 3, 7. The numbers of the grey events are written from the front of the lent slice, and what lies behind
// them stays. A refusal leaves the slice as it was, and answers 0.
pub fn list_grey(cfg: &[i32], state: &Lent, list: &mut [u16]) -> Result<usize, Refusal>
    ensures { leaves (of_length result) [] (lent_room list.new)
        (as_found state.now)
        ≡ list_grey cfg.now (lent_room list.old)
        (as_found state.now) }
{
    judge_list(cfg, state, list)?;
    Ok(write_grey(cfg, state.records, state.board, list))
}
