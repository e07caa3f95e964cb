// Document 01, "Status byte" and "Memory": what happens to one event, in the lent blocks.
#![tactic(auto)]

ghost use Rattle.std.specs.Prelude.{◌≡◌, cond, List, ℕ, ◌+◌, ◌*◌, ◌≤◌, ◌<◌, ℤ, pos, length, set};
ghost use Rattle.history.specs.StatusByte.{ages_at_stop};
ghost use Rattle.history.specs.History.{passed, start};
ghost use Rattle.manual.specs.declared.Board.{Board};
ghost use Rattle.manual.specs.Configuration.{Configuration, events, places, frame_bytes, entry_frames, limits_of};
ghost use Rattle.manual.specs.State.{record_width, opened, stored_at, lent};
ghost use Rattle.manual.specs.Lent.{as_lent, keeps_loans};
ghost use Rattle.manual.specs.Memory.{is_lost};
ghost use Rattle.manual.specs.OneEvent.{happens, entry_leaves, stops, clears};
ghost use Rattle.debounce.specs.Rows.{answered};
ghost use Rattle.memory.specs.InOrder.{InOrder};
ghost use Rattle.memory.specs.Store.{MayStore};
ghost use Rattle.one_event.specs.Ready.{accepts, BlocksFit, RecordFits, EventFits, Ready};
ghost use Rattle.one_event.specs.Steps.{record_stopped, resetting, stepped, tells_memory, failing, qualifying};
ghost use Rattle.one_event.specs.Steps.{applying, reporting, ticking};

use debounce::Debounced;
use manual::{EventNumber, LentMut, StoreAnswer, Verdict};

// "Start of a stopped cycle: for its events clears 1, sets 6."
pub fn starts(records: &mut [u8], event: EventNumber)
    requires { record_width * event.0 + record_width ≤ length records.old }
    ensures { (cfg : Configuration) (d : List ℤ) (m : List ℕ) (b : Board)
        → lent records.new d m b ≡ happens cfg start event.0 (lent records.old d m b) }
{
    let before = status::read_record(records, event);
    status::write_record(records, event, status::started(before));
}

// "Passed: clears 0, 4, 6."
pub fn passes(records: &mut [u8], event: EventNumber)
    requires { record_width * event.0 + record_width ≤ length records.old }
    ensures { (cfg : Configuration) (d : List ℤ) (m : List ℕ) (b : Board)
        → lent records.new d m b ≡ happens cfg passed event.0 (lent records.old d m b) }
{
    let before = status::read_record(records, event);
    status::write_record(records, event, status::passed(before));
}

// Where the test holds, "its entry leaves memory".
fn entry_leaves_if(test: bool, cfg: &[i32], memory: &mut [u8], event: EventNumber)
    requires { InOrder (events cfg.now) (places cfg.now) (entry_frames cfg.now) memory.old }
    ensures { (r : List ℕ) (d : List ℤ) (b : Board)
        → lent r d memory.new b
        ≡ cond test (entry_leaves cfg.now event.0 (lent r d memory.old b))
        (lent r d memory.old b) }
{
    if test {
        memory::forget(cfg, memory, event);
    }
}

// "D = 0", at a stop and at a clear.
fn reset_number(debounce: &mut [i32], event: EventNumber)
    requires { event.0 < length debounce.old }
    ensures { debounce.new ≡ set debounce.old event.0 (pos 0) }
{
    status::write_number(debounce, event, 0);
}

// (a) and (b) on the event's record: answers whether the event aged. A record that has nothing to do is not written.
fn stop_record(cfg: &[i32], records: &mut [u8], event: EventNumber) -> bool
    requires { RecordFits cfg.now records.old event.0 }
    ensures { (records.new ≡ record_stopped cfg.now event.0 records.old)
        × (result ≡ ages_at_stop (limits_of cfg.now event.0)
        (opened (stored_at event.0 records.old))) }
{
    let before = status::read_record(records, event);
    if status::rests_at_stop(before) {
        return false;
    }
    let limits = config::limits_within(cfg, event);
    let after = status::stopped(limits.heal, limits.age, before);
    status::write_record(records, event, after.record);
    after.aged
}

// "Stop, for its events: (a) … (b) … at A the event ages: …, its entry leaves memory. (c) D = 0."
pub fn stops(cfg: &[i32], state: &mut LentMut, event: EventNumber)
    requires { EventFits cfg.now (as_lent state.old) event.0 }
    ensures loans { keeps_loans state.old state.new }
    ensures promise { as_lent state.new ≡ stops cfg.now event.0 (as_lent state.old) }
{
    let aged = stop_record(cfg, state.records, event);
    entry_leaves_if(aged, cfg, state.memory, event);
    reset_number(state.debounce, event);
}

// "status 50h, K = h = g = D = 0": what a clear does to the event beside memory.
pub fn resets(records: &mut [u8], debounce: &mut [i32], event: EventNumber)
    requires { (record_width * event.0 + record_width ≤ length records.old) × (event.0 < length debounce.old) }
    ensures { (cfg : Configuration) (m : List ℕ) (b : Board)
        → lent records.new debounce.new m b
        ≡ resetting cfg event.0 (lent records.old debounce.old m b) }
{
    status::write_record(records, event, status::fresh_record());
    reset_number(debounce, event);
}

// "each covered event gets status 50h, K = h = g = D = 0, its entry leaves"
pub fn clears(cfg: &[i32], state: &mut LentMut, event: EventNumber)
    requires { EventFits cfg.now (as_lent state.old) event.0 }
    ensures loans { keeps_loans state.old state.new }
    ensures promise { as_lent state.new ≡ clears cfg.now event.0 (as_lent state.old) }
{
    resets(state.records, state.debounce, event);
    memory::forget(cfg, state.memory, event);
}

// Whether a fresh failure was "not stored".
fn is_lost(did: StoreAnswer) -> bool
    ensures { result ≡ is_lost did }
{
    matches!(did, StoreAnswer::NotStored)
}

// "Fresh failure of e with the lent frame": memory is told. "Else not stored; overflow is set." Answers what memory
// did.
fn tell_memory(cfg: &[i32], state: &mut LentMut, event: EventNumber, frame: &[u8]) -> StoreAnswer
    requires { MayStore cfg.now state.old.memory.now event.0 frame.now }
    ensures loans { keeps_loans state.old state.new }
    ensures promise { stepped (as_lent state.new) result
        ≡ tells_memory cfg.now frame.now event.0 (as_lent state.old) }
{
    let records = &mut *state.records;
    let did = memory::store(cfg, records, state.memory, event, frame);
    state.board.overflow = state.board.overflow | is_lost(did);
    did
}

// "Failed: … If bit 0 was clear before, it is a fresh failure and memory is told, last."
pub fn fails(cfg: &[i32], state: &mut LentMut, event: EventNumber, frame: &[u8]) -> StoreAnswer
    requires { (BlocksFit cfg.now (as_lent state.old) event.0) × (length frame.now ≡ frame_bytes cfg.now) }
    ensures loans { keeps_loans state.old state.new }
    ensures promise { stepped (as_lent state.new) result
        ≡ failing cfg.now frame.now event.0 (as_lent state.old) }
{
    let limits = config::limits_of(cfg, event);
    let records = &mut *state.records;
    let before = status::read_record(records, event);
    let after = status::failed(limits.confirm, limits.indicator, before);
    status::write_record(records, event, after.record);
    if after.fresh_failure {
        tell_memory(cfg, state, event, frame)
    } else {
        StoreAnswer::Untold
    }
}

// "A verdict other than none is a qualified result.": what the verdict does to the event.
pub fn qualifies(
    cfg: &[i32],
    state: &mut LentMut,
    event: EventNumber,
    frame: &[u8],
    verdict: Verdict,
) -> StoreAnswer
    requires { (BlocksFit cfg.now (as_lent state.old) event.0) × (length frame.now ≡ frame_bytes cfg.now) }
    ensures loans { keeps_loans state.old state.new }
    ensures promise { stepped (as_lent state.new) result
        ≡ qualifying cfg.now frame.now event.0 verdict (as_lent state.old) }
{
    match verdict {
        Verdict::None => StoreAnswer::Untold,
        Verdict::Passed => {
            passes(state.records, event);
            StoreAnswer::Untold
        }
        Verdict::Failed => fails(cfg, state, event, frame),
    }
}

// The new D, then what the verdict does to the event.
pub fn applies(
    cfg: &[i32],
    state: &mut LentMut,
    event: EventNumber,
    frame: &[u8],
    d: Debounced,
) -> StoreAnswer
    requires { (EventFits cfg.now (as_lent state.old) event.0) × (length frame.now ≡ frame_bytes cfg.now) }
    ensures loans { keeps_loans state.old state.new }
    ensures promise { stepped (as_lent state.new) result
        ≡ applying cfg.now frame.now event.0 (answered d) (as_lent state.old) }
{
    status::write_number(state.debounce, event, d.number);
    qualifies(cfg, state, event, frame, d.verdict)
}

// A report's verdict, and what memory did.
#[derive(Clone, Copy)]
pub struct Reported {
    pub verdict: Verdict,
    pub did: StoreAnswer,
}

// "Each accepted report gives a verdict": the new D of the event, and what the verdict does to it.
pub fn reports(
    cfg: &[i32],
    state: &mut LentMut,
    event: EventNumber,
    code: u32,
    frame: &[u8],
) -> Reported
    requires { (Ready cfg.now (as_lent state.old) event.0) × (length frame.now ≡ frame_bytes cfg.now) }
    ensures loans { keeps_loans state.old state.new }
    ensures promise { stepped (accepts result.verdict (as_lent state.new)) result.did
        ≡ reporting cfg.now frame.now event.0 code (as_lent state.old) }
{
    let row = debounce::row_of(cfg, event);
    let numbers = &mut *state.debounce;
    let d = debounce::report_step(row, code, status::read_number(numbers, event));
    let did = applies(cfg, state, event, frame, d);
    Reported {
        verdict: d.verdict,
        did,
    }
}

// As `applies`. Most events of a tick have no verdict: for them nothing but the number is written, and nothing called.
fn moves(
    cfg: &[i32],
    state: &mut LentMut,
    event: EventNumber,
    frame: &[u8],
    d: Debounced,
) -> StoreAnswer
    requires { (EventFits cfg.now (as_lent state.old) event.0) × (length frame.now ≡ frame_bytes cfg.now) }
    ensures loans { keeps_loans state.old state.new }
    ensures promise { stepped (as_lent state.new) result
        ≡ applying cfg.now frame.now event.0 (answered d) (as_lent state.old) }
{
    match d.verdict {
        Verdict::None => {
            status::write_number(state.debounce, event, d.number);
            StoreAnswer::Untold
        }
        _ => applies(cfg, state, event, frame, d),
    }
}

// "Tick of d ms", for an event of kind 2 whose cycle runs: "Every event so qualified takes the lent frame." Answers
// what memory did.
pub fn ticks(
    cfg: &[i32],
    state: &mut LentMut,
    event: EventNumber,
    ms: u32,
    frame: &[u8],
) -> StoreAnswer
    requires { (Ready cfg.now (as_lent state.old) event.0) ×
        ((length frame.now ≡ frame_bytes cfg.now) × (ms ≤ 60000)) }
    ensures loans { keeps_loans state.old state.new }
    ensures promise { stepped (as_lent state.new) result
        ≡ ticking cfg.now frame.now event.0 ms (as_lent state.old) }
{
    let row = debounce::row_of(config::part_of(cfg, event), EventNumber(0));
    let numbers = &mut *state.debounce;
    let d = debounce::tick_step(row, ms, status::read_number(numbers, event));
    moves(cfg, state, event, frame, d)
}
