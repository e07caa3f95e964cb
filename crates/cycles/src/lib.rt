// Document 01, "Status byte": the calls that start and stop a cycle.
#![tactic(auto)]

ghost use Rattle.std.specs.Prelude.{◌≡◌, true, List, [], ℕ, ◌<◌, ltb, ℤ};
ghost use Rattle.history.specs.History.{start};
ghost use Rattle.manual.specs.State.{lent, with_cycle};
ghost use Rattle.manual.specs.Lent.{as_found, as_lent, keeps_loans};
ghost use Rattle.manual.specs.OneEvent.{happens, stops, for_those};
ghost use Rattle.manual.specs.Answers.{alone, lent_counts, first_that_applies, of_answer, leaves};
ghost use Rattle.manual.specs.Counts.{rise_of, numbers, carries_past};
ghost use Rattle.manual.specs.Calls.{begins, of_cycle, start_cycle, stop_log, stop_rules, stop_cycle};
ghost use Rattle.config.specs.Rows.{RowWithin};
ghost use Rattle.counts.specs.Near.{AreFive};
ghost use Rattle.judgement.specs.Checks.{check_number};
ghost use Rattle.judgement.specs.Fits.{RecordsFor};
ghost use Rattle.cycles.specs.Cycles.{four_five, MayStop, stopped};

use manual::{Board, EventNumber, Lent, LentMut, Refusal, Rise};

// "4 | no such … cycle (above 3)"
const LAST_CYCLE: u32 = manual::CYCLES as u32 - 1;

// ---- "start and stop 4, 5"

// 4, then 5: "The first that applies, in the call's order, is given."
#[tactic(auto, unfolding(manual::specs::Answers::first_that_applies))]
fn four_five(no_such: bool, wrong: bool) -> Result<(), Refusal>
    ensures { check_number result ≡ first_that_applies (four_five no_such wrong) }
{
    if no_such {
        return Err(Refusal::NoSuch);
    }
    if wrong {
        return Err(Refusal::WrongCycleState);
    }
    Ok(())
}

// 2, 3, then "4 | no such … cycle (above 3)", then 5 where the cycle is not in the state that the call asks for. `fits`
// says whether what is lent beside the state has the right length.
fn judge(cfg: &[i32], state: &Lent, fits: bool, cycle: u32, wrong: bool) -> Result<(), Refusal>
    ensures { check_number result
        ≡ first_that_applies
        (begins cfg.now (as_found state.now) fits (four_five (ltb 3 cycle) wrong)) }
{
    judgement::begin(cfg, state, fits)?;
    four_five(LAST_CYCLE < cycle, wrong)
}

// ---- the events of the cycle

// Whether the event is one of the cycle.
fn of_cycle(cfg: &[i32], cycle: usize, event: EventNumber) -> bool
    requires { RowWithin cfg.now event.0 }
    ensures { result ≡ of_cycle cfg.now cycle event.0 }
{
    config::cycle_within(cfg, event) == cycle
}

// ---- start

// "Start of a stopped cycle: for its events clears 1, sets 6."
fn accept_start(cfg: &[i32], records: &mut [u8], board: &mut Board, cycle: usize)
    requires { (RecordsFor cfg.now records.old) × (cycle < 4) }
    ensures { (d : List ℤ) (m : List ℕ)
        → lent records.new d m board.new
        ≡ with_cycle cycle true
        (for_those cfg.now (of_cycle cfg.now cycle) (happens cfg.now start)
        (lent records.old d m board.old)) }
{
    for event in 0..config::events(cfg) {
        let event = EventNumber(event);
        if of_cycle(cfg, cycle, event) {
            one_event::starts(records, event);
        }
    }
    board.running[cycle] = true;
}

// The call that starts a cycle; "5 | … start, cycle running". It takes no `LentMut`: the C interface lends it the
// debounce numbers and memory to be read only.
pub fn start(
    cfg: &[i32],
    records: &mut [u8],
    debounce: &[i32],
    memory: &[u8],
    board: &mut Board,
    cycle: u32,
) -> Result<(), Refusal>
    ensures { leaves (of_answer result) [] alone (lent records.new debounce.now memory.now board.new)
        ≡ start_cycle cfg.now cycle alone
        (lent records.old debounce.now memory.now board.old) }
{
    let found = Lent {
        records: &*records,
        debounce,
        memory,
        board: *board,
    };
    let wrong = judgement::runs(found.board, cycle as usize);
    judge(cfg, &found, true, cycle, wrong)?;
    accept_start(cfg, records, board, cycle as usize);
    Ok(())
}

// ---- stop

// "Stop, for its events: (a) … (b) … (c) D = 0."
fn stop_events(cfg: &[i32], state: &mut LentMut, cycle: usize)
    requires { MayStop cfg.now (as_lent state.old) cycle }
    ensures loans { keeps_loans state.old state.new }
    ensures promise { as_lent state.new ≡ stopped cfg.now cycle (as_lent state.old) }
{
    for event in 0..config::events(cfg) {
        let event = EventNumber(event);
        if of_cycle(cfg, cycle, event) {
            one_event::stops(cfg, state, event);
        }
    }
    state.board.running[cycle] = false;
}

// The work of a stop, on the lent blocks or on copies of them. It stores nothing: the entries that are gone after it
// have aged. Answers what that adds to the counts.
fn accept_stop(cfg: &[i32], state: &mut LentMut, cycle: usize) -> Rise
    requires { MayStop cfg.now (as_lent state.old) cycle }
    ensures loans { keeps_loans state.old state.new }
    ensures promise { as_lent state.new ≡ stopped cfg.now cycle (as_lent state.old) }
    ensures rise { numbers result ≡ rise_of (stop_log cfg.now cycle (as_lent state.old)) }
{
    let before = memory::entry_count(state.as_found().memory);
    stop_events(cfg, state, cycle);
    let gone = (before - memory::entry_count(state.as_found().memory)) as u32;
    counts::aged_rise(gone)
}

// What a stop would add to the counts. Nothing lent changes.
fn rehearse(cfg: &[i32], state: &Lent, cycle: usize) -> Rise
    requires { MayStop cfg.now (as_found state.now) cycle }
    ensures { numbers result ≡ rise_of (stop_log cfg.now cycle (as_found state.now)) }
{
    rehearsal::on_copies(state, |copies| accept_stop(cfg, copies, cycle))
}

// "whose whole rise would carry any count past 4,294,967,295". Only where a count is near that is the stop rehearsed.
fn carries_past(cfg: &[i32], state: &Lent, cycle: usize, counts: &[u32]) -> bool
    requires { (MayStop cfg.now (as_found state.now) cycle) × (AreFive counts.now) }
    ensures { result ≡ carries_past (stop_log cfg.now cycle (as_found state.now)) counts.now }
{
    counts::some_near(counts) && counts::some_past(counts, rehearse(cfg, state, cycle))
}

// "start and stop 4, 5", and of a stop document 02's W7: "refused with new number 12, checked last".
fn judge_stop(cfg: &[i32], state: &Lent, cycle: u32, counts: &[u32]) -> Result<(), Refusal>
    ensures { check_number result
        ≡ first_that_applies
        (stop_rules cfg.now cycle (lent_counts counts.now) (as_found state.now)) }
{
    let c = cycle as usize;
    let wrong = !judgement::runs(state.board, c);
    let fits = counts::fit(counts);
    judge(cfg, state, fits, cycle, wrong)?;
    rehearsal::limit_test(carries_past(cfg, state, c, counts))
}

// The call that stops a cycle; "5 | … stop, cycle stopped". The counts rise by the entries that age.
pub fn stop(cfg: &[i32], state: &mut LentMut, cycle: u32, counts: &mut [u32]) -> Result<(), Refusal>
    ensures loans { keeps_loans state.old state.new }
    ensures promise { leaves (of_answer result) [] (lent_counts counts.new) (as_lent state.new)
        ≡ stop_cycle cfg.now cycle (lent_counts counts.old) (as_lent state.old) }
{
    judge_stop(cfg, &state.as_found(), cycle, counts)?;
    let rise = accept_stop(cfg, state, cycle as usize);
    counts::raise(counts, rise);
    Ok(())
}
