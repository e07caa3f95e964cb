// The work of an accepted tick, and its rehearsal: what it would add to the counts, before anything lent changes.
ghost use Rattle.std.specs.Prelude.{◌≡◌, ℕ, ◌≤◌, length};
ghost use Rattle.manual.specs.Configuration.{frame_bytes};
ghost use Rattle.manual.specs.Lent.{as_found, as_lent, keeps_loans};
ghost use Rattle.manual.specs.Counts.{of_store, rise_of, numbers, raised, carries_past};
ghost use Rattle.manual.specs.Calls.{tick_log};
ghost use Rattle.counts.specs.Near.{AreFive, MayRise};
ghost use Rattle.one_event.specs.Ready.{Ready};
ghost use Rattle.one_event.specs.Steps.{stepped};
ghost use Rattle.reporting.specs.Accepted.{MayTick, tick_part, ticked};

use crate::Tick;
use crate::tests::tick_moves;
use manual::{Board, EventNumber, Lent, LentMut, Rise, StoreAnswer};

// The event's part of a tick: answers what memory did. Which cycles run is read off the board at the tick's start, once
// for all events: behind the state it would be read again for each.
fn tick_event(
    cfg: &[i32],
    state: &mut LentMut,
    board: Board,
    event: EventNumber,
    given: &Tick,
) -> StoreAnswer
    requires { (Ready cfg.now (as_lent state.old) event.0) ×
        ((length given.now.frame.now ≡ frame_bytes cfg.now) × (given.now.ms ≤ 60000)) }
    ensures loans { keeps_loans state.old state.new }
    ensures promise { stepped (as_lent state.new) result
        ≡ tick_part cfg.now given.now.ms given.now.frame.now given.now.present board event.0
        (as_lent state.old) }
{
    if !tick_moves(cfg, board, event, given.present) {
        return StoreAnswer::Untold;
    }
    one_event::ticks(cfg, state, event, given.ms, given.frame)
}

// The rise of the events before, with that of one more. Most events of a tick tell memory nothing: for them nothing is
// added up.
fn with_event(rise: Rise, did: StoreAnswer) -> Rise
    requires { MayRise rise }
    ensures { (e : ℕ) → numbers result ≡ raised (rise_of (of_store e did)) (numbers rise) }
{
    match did {
        StoreAnswer::Untold => rise,
        _ => counts::with_store(rise, did),
    }
}

// "events in rising number": what each leaves, and what all of them add to the counts.
pub(crate) fn tick_events(cfg: &[i32], state: &mut LentMut, given: &Tick) -> Rise
    requires { MayTick cfg.now (as_lent state.old) given.now.ms given.now.frame.now }
    ensures loans { keeps_loans state.old state.new }
    ensures promise { as_lent state.new
        ≡ ticked cfg.now given.now.ms given.now.frame.now given.now.present (as_lent state.old) }
    ensures rise { numbers result
        ≡ rise_of (tick_log cfg.now given.now.ms given.now.frame.now given.now.present
        (as_lent state.old)) }
{
    let n = config::events(cfg);
    let board = state.board;
    let mut rise = counts::no_rise();
    for event in 0..n {
        let did = tick_event(cfg, state, board, EventNumber(event), given);
        rise = with_event(rise, did);
    }
    rise
}

// What the tick would add to the counts. Nothing lent changes.
fn rehearse(cfg: &[i32], state: &Lent, given: &Tick) -> Rise
    requires { MayTick cfg.now (as_found state.now) given.now.ms given.now.frame.now }
    ensures { numbers result
        ≡ rise_of (tick_log cfg.now given.now.ms given.now.frame.now given.now.present
        (as_found state.now)) }
{
    // By parts: what a closure ensures is not known where it captures a struct that holds a reference.
    let Tick { ms, frame, present } = *given;
    rehearsal::on_copies(state, |copies| {
        tick_events(cfg, copies, &Tick { ms, frame, present })
    })
}

// Whether the tick's "whole rise would carry any count past 4,294,967,295". It is rehearsed only where a count is near
// that.
pub(crate) fn carries_past(cfg: &[i32], state: &Lent, given: &Tick, counts: &[u32]) -> bool
    requires { (MayTick cfg.now (as_found state.now) given.now.ms given.now.frame.now) ×
        (AreFive counts.now) }
    ensures { result
        ≡ carries_past (tick_log cfg.now given.now.ms given.now.frame.now given.now.present
        (as_found state.now)) counts.now }
{
    if !counts::some_near(counts) {
        return false;
    }
    let rise = rehearse(cfg, state, given);
    counts::some_past(counts, rise)
}
