// Document 01, "Debouncing": what a report and what a tick do to a debounce number, and the verdict.
#![tactic(auto)]

ghost use Rattle.std.specs.Prelude.{◌≡◌, cond, [], ◌+◌, ◌≤◌, ◌<◌, pos, nat_abs, ◌+ℤ◌, ◌-ℤ◌};
ghost use Rattle.manual.specs.Configuration.{most_events};
ghost use Rattle.manual.specs.Words.{smaller, larger};
ghost use Rattle.manual.specs.Debouncing.{top, bottom, verdict_at, leaves_at, internal_report, counter_up};
ghost use Rattle.manual.specs.Debouncing.{counter_down, counter_report, time_report};
ghost use Rattle.debounce.specs.Rows.{RowOf, alone, answered, reported_by, ticked_by};
ghost use Rattle.debounce.specs.Rows.{SmallRow, SmallReport, SmallTick};

use manual::{EventNumber, Verdict};

// What debouncing reads of an event's row, the numbers 4 to 9: kind, P, Q, up, down and jumps.
#[derive(Clone, Copy)]
pub struct Row {
    pub kind: usize,
    pub low: i32,
    pub high: i32,
    pub up: i32,
    pub down: i32,
    pub jumps: usize,
}

// What debouncing reads of the event's row.
pub fn row_of(cfg: &[i32], event: EventNumber) -> Row
    requires { event.0 < most_events }
    ensures { RowOf cfg.now event.0 result }
{
    Row {
        kind: config::kind_of(cfg, event),
        low: config::low_of(cfg, event),
        high: config::high_of(cfg, event),
        up: config::up_of(cfg, event),
        down: config::down_of(cfg, event),
        jumps: config::jumps_of(cfg, event),
    }
}

// The new D, and the verdict.
#[derive(Clone, Copy)]
pub struct Debounced {
    pub number: i32,
    pub verdict: Verdict,
}

// "Codes: 0 passed, 1 failed, 2 pre-passed, 3 pre-failed." No other is accepted: a match on these three leaves
// pre-passed.
pub const PASSED: u32 = 0;

pub const FAILED: u32 = 1;

pub const PRE_FAILED: u32 = 3;

// "its top (Q, Q+1)"
pub fn top(row: Row) -> i32
    requires { SmallRow row }
    ensures { result ≡ top (alone row) 0 }
{
    if row.kind == config::TIME {
        return row.high + 1;
    }
    row.high
}

// "its bottom (P, P−1)"
pub fn bottom(row: Row) -> i32
    requires { SmallRow row }
    ensures { result ≡ bottom (alone row) 0 }
{
    if row.kind == config::TIME {
        return row.low - 1;
    }
    row.low
}

// "Verdict, kinds 1 and 2: failed if the report leaves D at its top (Q, Q+1), passed if at its bottom (P, P−1), else
// none."
fn verdict_at(row: Row, d: i32) -> Verdict
    requires { SmallRow row }
    ensures { result ≡ verdict_at (alone row) 0 d }
{
    if d == top(row) {
        return Verdict::Failed;
    }
    if d == bottom(row) {
        return Verdict::Passed;
    }
    Verdict::None
}

// The D that a report or a tick leaves, with the verdict there.
fn leaves_at(row: Row, d: i32) -> Debounced
    requires { SmallRow row }
    ensures { answered result ≡ leaves_at (alone row) 0 d }
{
    Debounced {
        number: d,
        verdict: verdict_at(row, d),
    }
}

// "Kind 0: passed and failed are the verdict; D stays 0." No number of the row plays a part, so the contract names no
// row.
fn internal_report(code: u32, d: i32) -> Debounced
    ensures { answered result ≡ internal_report [] 0 code d }
{
    let verdict = match code {
        FAILED => Verdict::Failed,
        PASSED => Verdict::Passed,
        _ => Verdict::None,
    };
    Debounced { number: d, verdict }
}

// "start from D, or from 0 if …"
fn start(jump: bool, d: i32) -> i32
    ensures { result ≡ cond jump (pos 0) d }
{
    if jump { 0 } else { d }
}

// "start from D, or from 0 if …; add up"
fn raised(jump: bool, d: i32, up: i32) -> i32
    requires { nat_abs d + nat_abs up ≤ 200000 }
    ensures { result ≡ cond jump (pos 0) d +ℤ up }
{
    start(jump, d) + up
}

// "start from D, or from 0 if …; subtract down"
fn lowered(jump: bool, d: i32, down: i32) -> i32
    requires { nat_abs d + nat_abs down ≤ 200000 }
    ensures { result ≡ cond jump (pos 0) d -ℤ down }
{
    start(jump, d) - down
}

// "Pre-failed: start from D, or from 0 if jump up is on and D < 0; add up; cap at Q." Jumps "1 = jump up, … 3 = both".
fn counter_up(row: Row, d: i32) -> i32
    requires { SmallReport row d }
    ensures { result ≡ counter_up (alone row) 0 d }
{
    let jump_up = (row.jumps == 1) | (row.jumps == 3);
    let sum = raised(jump_up & (d < 0), d, row.up);
    sum.min(row.high)
}

// "Pre-passed: start from D, or from 0 if jump down is on and D > 0; subtract down; hold at P." Jumps "2 = jump down, 3
// = both".
fn counter_down(row: Row, d: i32) -> i32
    requires { SmallReport row d }
    ensures { result ≡ counter_down (alone row) 0 d }
{
    let jump_down = (row.jumps == 2) | (row.jumps == 3);
    let rest = lowered(jump_down & (0 < d), d, row.down);
    rest.max(row.low)
}

// "Kind 1: failed sets D = Q, passed sets D = P."
fn counter_report(row: Row, code: u32, d: i32) -> i32
    requires { SmallReport row d }
    ensures { result ≡ counter_report (alone row) 0 code d }
{
    match code {
        FAILED => row.high,
        PASSED => row.low,
        PRE_FAILED => counter_up(row, d),
        _ => counter_down(row, d),
    }
}

// "Kind 2: failed sets D = Q+1, passed D = P−1. Pre-failed: D = 1 if D ≤ 0, else unchanged. Pre-passed: D = −1 if D ≥
// 0, else unchanged."
fn time_report(row: Row, code: u32, d: i32) -> i32
    requires { SmallRow row }
    ensures { result ≡ time_report (alone row) 0 code d }
{
    match code {
        FAILED => row.high + 1,
        PASSED => row.low - 1,
        PRE_FAILED => if d <= 0 { 1 } else { d },
        _ => if 0 <= d { -1 } else { d },
    }
}

// "Each accepted report gives a verdict: none, passed or failed." The new D of an event with this row, and the verdict.
pub fn report_step(row: Row, code: u32, d: i32) -> Debounced
    requires { SmallReport row d }
    ensures { answered result ≡ reported_by row code d }
{
    match row.kind {
        config::INTERNAL => internal_report(code, d),
        config::COUNTER => leaves_at(row, counter_report(row, code, d)),
        _ => leaves_at(row, time_report(row, code, d)),
    }
}

// The waited time goes on by ms, until its end.
fn goes_on(waited: i32, ms: u32, end: i32) -> i32
    requires { (nat_abs waited ≤ 30001) × (ms ≤ 60000) }
    ensures { result ≡ smaller (waited +ℤ pos ms) end }
{
    (waited + ms as i32).min(end)
}

// "0 < D < Q+1 becomes the smaller of D+d and Q+1": D is the waited time.
fn tick_up(row: Row, ms: u32, d: i32) -> i32
    requires { SmallTick row ms d }
    ensures { result ≡ smaller (d +ℤ pos ms) (top (alone row) 0) }
{
    goes_on(d, ms, top(row))
}

// "P−1 < D < 0 the larger of D−d and P−1": the waited time is −D and its end −(P−1), and what it comes to is negated
// back.
fn tick_down(row: Row, ms: u32, d: i32) -> i32
    requires { SmallTick row ms d }
    ensures { result ≡ larger (d -ℤ pos ms) (bottom (alone row) 0) }
{
    let waited = -d;
    let end = -bottom(row);
    -goes_on(waited, ms, end)
}

// "Tick of d ms": the new D of an event with this row, and the verdict. A D of 0, at its top or at its bottom stays,
// with no verdict.
pub fn tick_step(row: Row, ms: u32, d: i32) -> Debounced
    requires { SmallTick row ms d }
    ensures { answered result ≡ ticked_by row ms d }
{
    if (0 < d) & (d < top(row)) {
        return leaves_at(row, tick_up(row, ms, d));
    }
    if (bottom(row) < d) & (d < 0) {
        return leaves_at(row, tick_down(row, ms, d));
    }
    Debounced {
        number: d,
        verdict: Verdict::None,
    }
}
