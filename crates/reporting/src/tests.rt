// The tests of report and tick: the refusals that follow 2 and 3, and which events a tick moves.
ghost use Rattle.std.specs.Prelude.{◌≡◌, true, ◌&&◌, ◌<◌, ltb};
ghost use Rattle.manual.specs.Configuration.{most_events, is_internal, config_ok};
ghost use Rattle.manual.specs.Answers.{first_that_applies};
ghost use Rattle.manual.specs.Calls.{wrong_frame, cycle_runs, time_runs, tick_moves};
ghost use Rattle.config.specs.Rows.{RowWithin};
ghost use Rattle.judgement.specs.Checks.{check_number};
ghost use Rattle.reporting.specs.Tests.{row_tests, report_tests, tick_tests};

use crate::{Report, Tick};
use manual::{Board, EventNumber, Refusal};

// "Tick of d ms (0 to 60,000)"
const LONGEST_TICK: u32 = 60_000;

// "9 | lent frame is not F bytes"
fn wrong_frame(cfg: &[i32], frame: &[u8]) -> bool
    ensures { result ≡ wrong_frame cfg.now frame.now }
{
    frame.len() != config::frame_bytes(cfg)
}

// Whether the event's cycle runs.
fn cycle_runs(cfg: &[i32], board: Board, event: EventNumber) -> bool
    requires { event.0 < most_events }
    ensures { result ≡ cycle_runs cfg.now board event.0 }
{
    judgement::runs(board, config::cycle_of(cfg, event))
}

// ---- report

// "6 | pre-result reported to an event of kind 0"
fn no_pre_result(cfg: &[i32], event: EventNumber, code: u32) -> bool
    requires { event.0 < most_events }
    ensures { result ≡ is_internal cfg.now event.0 && ltb 1 code }
{
    (config::kind_of(cfg, event) == config::INTERNAL) & (debounce::FAILED < code)
}

// "report …, 6, 9, 5", and 11 of document 02, of an event that has a row.
fn row_tests(cfg: &[i32], board: Board, given: &Report) -> Result<(), Refusal>
    requires { given.now.event.0 < most_events }
    ensures { check_number result
        ≡ first_that_applies
        (row_tests cfg.now board given.now.event.0 given.now.code given.now.frame.now
        given.now.present) }
{
    let pre_refused = no_pre_result(cfg, given.event, given.code);
    let frame_refused = wrong_frame(cfg, given.frame);
    let running = cycle_runs(cfg, board, given.event);
    let enabled = conditions::enabled(cfg, given.event, given.present);
    if pre_refused {
        return Err(Refusal::NoPreResult);
    }
    if frame_refused {
        return Err(Refusal::WrongFrame);
    }
    if !running {
        return Err(Refusal::WrongCycleState);
    }
    if !enabled {
        return Err(Refusal::MissingCondition);
    }
    Ok(())
}

// "report 4, 1, 6, 9, 5", then 11. An event past the last has no row, so 4 is judged before the row is read.
pub(crate) fn report_tests(cfg: &[i32], board: Board, given: &Report) -> Result<(), Refusal>
    requires { config_ok cfg.now ≡ true }
    ensures { check_number result
        ≡ first_that_applies
        (report_tests cfg.now board given.now.event.0 given.now.code given.now.frame.now
        given.now.present) }
{
    let event_refused = config::events(cfg) <= given.event.0;
    let code_refused = debounce::PRE_FAILED < given.code;
    if event_refused {
        return Err(Refusal::NoSuch);
    }
    if code_refused {
        return Err(Refusal::BadArgument);
    }
    row_tests(cfg, board, given)
}

// ---- tick

// "tick 1, 9"
pub(crate) fn tick_tests(cfg: &[i32], given: &Tick) -> Result<(), Refusal>
    ensures { check_number result
        ≡ first_that_applies (tick_tests cfg.now given.now.ms given.now.frame.now) }
{
    if LONGEST_TICK < given.ms {
        Err(Refusal::BadArgument)
    } else if wrong_frame(cfg, given.frame) {
        Err(Refusal::WrongFrame)
    } else {
        Ok(())
    }
}

// "only kind 2 with its cycle running": the cycle is read for kind 2 alone.
fn time_runs(cfg: &[i32], board: Board, event: EventNumber) -> bool
    requires { RowWithin cfg.now event.0 }
    ensures { result ≡ time_runs cfg.now board event.0 }
{
    let part = config::part_of(cfg, event);
    if config::kind_of(part, EventNumber(0)) != config::TIME {
        return false;
    }
    cycle_runs(part, board, EventNumber(0))
}

// "A tick doesn't move such an event's D.": one whose needed conditions are not all present.
pub(crate) fn tick_moves(cfg: &[i32], board: Board, event: EventNumber, present: u32) -> bool
    requires { RowWithin cfg.now event.0 }
    ensures { result ≡ tick_moves cfg.now present board event.0 }
{
    if !time_runs(cfg, board, event) {
        return false;
    }
    conditions::enabled(cfg, event, present)
}
