// The work of an accepted report, and its rehearsal: what it would add to the counts, before anything lent changes.
ghost use Rattle.std.specs.Prelude.{◌≡◌};
ghost use Rattle.manual.specs.Lent.{as_found, as_lent, keeps_loans};
ghost use Rattle.manual.specs.Answers.{alone};
ghost use Rattle.manual.specs.Counts.{rise_of, numbers, carries_past};
ghost use Rattle.manual.specs.Calls.{report_log, report_done};
ghost use Rattle.counts.specs.Near.{AreFive};
ghost use Rattle.one_event.specs.Ready.{accepts};
ghost use Rattle.reporting.specs.Accepted.{MayReport};

use crate::Report;
use manual::{Lent, LentMut, Rise, Verdict};

// What an accepted report leaves beside the state: its verdict, and what it adds to the counts.
#[derive(Clone, Copy)]
pub(crate) struct Accepted {
    pub verdict: Verdict,
    pub rise: Rise,
}

// "Each accepted report gives a verdict: none, passed or failed."
pub(crate) fn accept_report(cfg: &[i32], state: &mut LentMut, given: &Report) -> Accepted
    requires { MayReport cfg.now (as_lent state.old) given.now.event.0 given.now.frame.now }
    ensures loans { keeps_loans state.old state.new }
    ensures promise { accepts result.verdict (as_lent state.new)
        ≡ report_done cfg.now given.now.event.0 given.now.code given.now.frame.now alone
        (as_lent state.old) }
    ensures rise { numbers result.rise
        ≡ rise_of (report_log cfg.now given.now.event.0 given.now.code given.now.frame.now
        (as_lent state.old)) }
{
    let after = one_event::reports(cfg, state, given.event, given.code, given.frame);
    Accepted {
        verdict: after.verdict,
        rise: counts::rise_of(after.did),
    }
}

// What the report would add to the counts. Nothing lent changes.
fn rehearse(cfg: &[i32], state: &Lent, given: &Report) -> Rise
    requires { MayReport cfg.now (as_found state.now) given.now.event.0 given.now.frame.now }
    ensures { numbers result
        ≡ rise_of (report_log cfg.now given.now.event.0 given.now.code given.now.frame.now
        (as_found state.now)) }
{
    // By parts: what a closure ensures is not known where it captures a struct that holds a reference.
    let Report {
        event,
        code,
        frame,
        present,
    } = *given;
    rehearsal::on_copies(state, |copies| {
        accept_report(
            cfg,
            copies,
            &Report {
                event,
                code,
                frame,
                present,
            },
        )
        .rise
    })
}

// Whether the report's "whole rise would carry any count past 4,294,967,295". It is rehearsed only where a count is
// near that.
pub(crate) fn carries_past(cfg: &[i32], state: &Lent, given: &Report, counts: &[u32]) -> bool
    requires { (MayReport cfg.now (as_found state.now) given.now.event.0 given.now.frame.now) ×
        (AreFive counts.now) }
    ensures { result
        ≡ carries_past (report_log cfg.now given.now.event.0 given.now.code given.now.frame.now
        (as_found state.now)) counts.now }
{
    if !counts::some_near(counts) {
        return false;
    }
    let rise = rehearse(cfg, state, given);
    counts::some_past(counts, rise)
}
