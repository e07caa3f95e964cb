// Document 01, "report" and "tick": the two calls that bring results to the events. Document 02, W7: what they add to
// the five counts.
#![tactic(auto)]

use manual::{Lent, LentMut, Refusal, Verdict};
use one_report::accept_report;
use one_tick::tick_events;

mod given;
mod one_report;
mod one_tick;
mod tests;

ghost use Rattle.std.specs.Prelude.{◌≡◌, []};
ghost use Rattle.manual.specs.Lent.{as_found, as_lent, keeps_loans};
ghost use Rattle.manual.specs.Answers.{lent_counts, first_that_applies, of_answer, of_report, leaves};
ghost use Rattle.manual.specs.Calls.{report_rules, report, tick_rules, tick};
ghost use Rattle.judgement.specs.Checks.{check_number};
ghost use Rattle.reporting.specs.Accepted.{Begun};
ghost use Rattle.reporting.specs.Tests.{all_report_tests, all_tick_tests};

pub use given::{Report, Tick};

// ---- report

// "report 4, 1, 6, 9, 5", 11, and 12 "checked last".
fn all_report_tests(
    cfg: &[i32],
    state: &Lent,
    given: &Report,
    counts: &[u32],
) -> Result<(), Refusal>
    requires { Begun cfg.now (as_found state.now) counts.now }
    ensures { check_number result
        ≡ first_that_applies
        (all_report_tests cfg.now given.now.event.0 given.now.code given.now.frame.now
        given.now.present counts.now (as_found state.now)) }
{
    tests::report_tests(cfg, state.board, given)?;
    rehearsal::limit_test(one_report::carries_past(cfg, state, given, counts))
}

// "The first that applies, in the call's order, is given. Every call begins 2, 3." "A slice of another length is 3."
fn judge_report(cfg: &[i32], state: &Lent, given: &Report, counts: &[u32]) -> Result<(), Refusal>
    ensures { check_number result
        ≡ first_that_applies
        (report_rules cfg.now given.now.event.0 given.now.code given.now.frame.now
        given.now.present (lent_counts counts.now) (as_found state.now)) }
{
    judgement::begin(cfg, state, counts::fit(counts))?;
    all_report_tests(cfg, state, given, counts)
}

// A test of the event has a result. Memory is told of a fresh failure, with the lent frame, and what becomes of entries
// is added to the counts. Answers the verdict, or the first of 2, 3, 4, 1, 6, 9, 5, 11, 12 that applies.
pub fn report(
    cfg: &[i32],
    state: &mut LentMut,
    given: &Report,
    counts: &mut [u32],
) -> Result<Verdict, Refusal>
    ensures loans { keeps_loans state.old state.new }
    ensures promise { leaves (of_report result) [] (lent_counts counts.new) (as_lent state.new)
        ≡ report cfg.now given.now.event.0 given.now.code given.now.frame.now given.now.present
        (lent_counts counts.old) (as_lent state.old) }
{
    judge_report(cfg, &state.as_found(), given, counts)?;
    let accepted = accept_report(cfg, state, given);
    counts::raise(counts, accepted.rise);
    Ok(accepted.verdict)
}

// ---- tick

// "tick 1, 9", and 12 "checked last".
fn all_tick_tests(cfg: &[i32], state: &Lent, given: &Tick, counts: &[u32]) -> Result<(), Refusal>
    requires { Begun cfg.now (as_found state.now) counts.now }
    ensures { check_number result
        ≡ first_that_applies
        (all_tick_tests cfg.now given.now.ms given.now.frame.now given.now.present counts.now
        (as_found state.now)) }
{
    tests::tick_tests(cfg, given)?;
    rehearsal::limit_test(one_tick::carries_past(cfg, state, given, counts))
}

// "The first that applies, in the call's order, is given. Every call begins 2, 3." "A slice of another length is 3."
fn judge_tick(cfg: &[i32], state: &Lent, given: &Tick, counts: &[u32]) -> Result<(), Refusal>
    ensures { check_number result
        ≡ first_that_applies
        (tick_rules cfg.now given.now.ms given.now.frame.now given.now.present
        (lent_counts counts.now) (as_found state.now)) }
{
    judgement::begin(cfg, state, counts::fit(counts))?;
    all_tick_tests(cfg, state, given, counts)
}

// Time passes for the events of kind 2 whose cycle runs and whose needed conditions are all in the set of those that
// are present. "Every event so qualified takes the lent frame." What becomes of entries is added to the counts. Answers
// done, or the first of 2, 3, 1, 9, 12 that applies.
pub fn tick(
    cfg: &[i32],
    state: &mut LentMut,
    given: &Tick,
    counts: &mut [u32],
) -> Result<(), Refusal>
    ensures loans { keeps_loans state.old state.new }
    ensures promise { leaves (of_answer result) [] (lent_counts counts.new) (as_lent state.new)
        ≡ tick cfg.now given.now.ms given.now.frame.now given.now.present (lent_counts counts.old)
        (as_lent state.old) }
{
    judge_tick(cfg, &state.as_found(), given, counts)?;
    let rise = tick_events(cfg, state, given);
    counts::raise(counts, rise);
    Ok(())
}
