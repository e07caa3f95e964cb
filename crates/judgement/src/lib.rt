// Document 01, "A state is well formed when …", and how every call begins.
#![tactic(auto)]

ghost use Rattle.std.specs.Prelude.{◌≡◌, true, [], pos, length, get_or, ◌+◌, ◌*◌, ◌≤◌};
ghost use Rattle.manual.specs.Words.{all_below};
ghost use Rattle.manual.specs.Configuration.{events, limits_of, config_ok};
ghost use Rattle.manual.specs.State.{record_width, runs, opened, stored_at};
ghost use Rattle.manual.specs.Lent.{as_found};
ghost use Rattle.manual.specs.WellFormed.{lengths_fit, record_ok, d_ok, well_formed};
ghost use Rattle.manual.specs.Answers.{first_that_applies};
ghost use Rattle.manual.specs.Calls.{begins, begins_with_lengths};
ghost use Rattle.config.specs.Rows.{RowWithin, RowsWithin};
ghost use Rattle.status.specs.Clauses.{bytes_ok, limits_kept};
ghost use Rattle.judgement.specs.Checks.{check_number, two_three};
ghost use Rattle.judgement.specs.Fits.{EventIn, RecordsFor, NumbersFor};

use manual::{Board, EventNumber, Lent, Refusal};

// Whether the cycle runs; a cycle above 3 does not.
pub fn runs(board: Board, cycle: usize) -> bool
    ensures { result ≡ runs board cycle }
{
    if cycle < manual::CYCLES {
        return board.running[cycle];
    }
    false
}

// ---- "A state is well formed when …"

// "all lengths fit"
pub fn lengths_fit(cfg: &[i32], state: &Lent) -> bool
    requires { config_ok cfg.now ≡ true }
    ensures { result ≡ lengths_fit cfg.now (as_found state.now) }
{
    let n = config::events(cfg);
    let memory_length = memory::memory_length(config::places(cfg), memory::entry_frames(cfg));
    (state.records.len() == manual::RECORD_WIDTH * n)
        & (state.debounce.len() == n)
        & (state.memory.len() == memory_length)
}

// The clauses on an event's record that ask for no number of its row. They are judged in a pass of their own: on bytes
// alone the compiler judges more records at once.
fn bytes_ok(records: &[u8], event: EventNumber) -> bool
    requires { record_width * event.0 + record_width ≤ length records.now }
    ensures { result ≡ bytes_ok (opened (stored_at event.0 records.now)) }
{
    status::bytes_ok(status::read_record(records, event))
}

// "for each event": these clauses.
fn all_bytes_ok(records: &[u8], n: usize) -> bool
    requires { record_width * n ≤ length records.now }
    ensures { result ≡ all_below n (λ e. bytes_ok (opened (stored_at e records.now))) }
{
    let mut ok = true;
    for event in 0..n {
        ok = ok & bytes_ok(records, EventNumber(event));
    }
    ok
}

// The clauses on an event's record that ask for a limit, where bit 3 or 7 is set: most rows need not be read for them.
fn limits_kept(cfg: &[i32], records: &[u8], event: EventNumber) -> bool
    requires { (RowWithin cfg.now event.0) × (record_width * event.0 + record_width ≤ length records.now) }
    ensures { result
        ≡ limits_kept (limits_of cfg.now event.0) (opened (stored_at event.0 records.now)) }
{
    let record = status::read_record(records, event);
    if !status::is_limited(record) {
        return true;
    }
    let limits = config::limits_within(cfg, event);
    status::limits_ok(limits.heal, limits.age, limits.indicator, record)
}

// "for each event": these clauses.
fn all_limits_kept(cfg: &[i32], records: &[u8], n: usize) -> bool
    requires { (RowsWithin cfg.now n) × (record_width * n ≤ length records.now) }
    ensures { result
        ≡ all_below n
        (λ e. limits_kept (limits_of cfg.now e) (opened (stored_at e records.now))) }
{
    let mut ok = true;
    for event in 0..n {
        ok = ok & limits_kept(cfg, records, EventNumber(event));
    }
    ok
}

// "for each event": the clauses on its record, from "bit 4 set means …" to "… g = 0 when bit 3 is clear".
pub fn records_ok(cfg: &[i32], records: &[u8]) -> bool
    requires { RecordsFor cfg.now records.now }
    ensures { result
        ≡ all_below (events cfg.now)
        (λ e. record_ok cfg.now e (opened (stored_at e records.now))) }
{
    let n = config::events(cfg);
    all_bytes_ok(records, n) & all_limits_kept(cfg, records, n)
}

// As `runs`, by comparing the cycle with each of the four: in a pass over the events an index that a row gives keeps
// the compiler from judging several at once.
fn one_runs(board: Board, cycle: usize) -> bool
    ensures { result ≡ runs board cycle }
{
    (board.running[0] & (cycle == 0))
        | (board.running[1] & (cycle == 1))
        | (board.running[2] & (cycle == 2))
        | (board.running[3] & (cycle == 3))
}

// "D is 0 if the event's cycle is stopped or its kind is 0, else in P..Q (kind 1) or P−1..Q+1 (kind 2)": 0 is right for
// every event. Any number may be judged. A branch, too, would keep the compiler from judging several at once.
pub fn number_ok(cfg: &[i32], board: Board, event: EventNumber, d: i32) -> bool
    requires { EventIn cfg.now event.0 }
    ensures { result ≡ d_ok cfg.now board event.0 d }
{
    let part = config::part_of(cfg, event);
    let row = debounce::row_of(part, EventNumber(0));
    let running = one_runs(board, config::cycle_of(part, EventNumber(0)));
    let moves = running & (row.kind != config::INTERNAL);
    let within = (debounce::bottom(row) <= d) & (d <= debounce::top(row));
    (d == 0) | (moves & within)
}

// "for each event": the clause on its debounce number.
pub fn numbers_ok(cfg: &[i32], board: Board, debounce: &[i32]) -> bool
    requires { NumbersFor cfg.now debounce.now }
    ensures { result
        ≡ all_below (events cfg.now)
        (λ e. d_ok cfg.now board e (get_or debounce.now e (pos 0))) }
{
    let mut ok = true;
    for event in 0..config::events(cfg) {
        let d = status::read_number(debounce, EventNumber(event));
        ok = ok & number_ok(cfg, board, EventNumber(event), d);
    }
    ok
}

// Whether the state is well formed, whatever its blocks hold and however long they are: "all lengths fit", then "for
// each event", then "Memory has at most M entries, …".
pub fn well_formed(cfg: &[i32], state: &Lent) -> bool
    requires { config_ok cfg.now ≡ true }
    ensures { result ≡ well_formed cfg.now (as_found state.now) }
{
    if !lengths_fit(cfg, state) {
        return false;
    }
    let n = config::events(cfg);
    let m = config::places(cfg);
    let f = memory::entry_frames(cfg);
    records_ok(cfg, state.records)
        & numbers_ok(cfg, state.board, state.debounce)
        & memory::memory_ok(n, m, f, state.memory, state.records)
}

// ---- how a call begins

// 2, then 3: "The first that applies, in the call's order, is given."
fn first_of(config_ok: bool, state_ok: bool) -> Result<(), Refusal>
    ensures { check_number result ≡ first_that_applies (two_three config_ok state_ok []) }
{
    if !config_ok {
        return Err(Refusal::BadConfiguration);
    }
    if !state_ok {
        return Err(Refusal::BadState);
    }
    Ok(())
}

// "Every call begins 2, 3." `fits` says whether what is lent beside the state has the right lengths.
pub fn begin(cfg: &[i32], state: &Lent, fits: bool) -> Result<(), Refusal>
    ensures { check_number result
        ≡ first_that_applies (begins cfg.now (as_found state.now) fits []) }
{
    let config_ok = config::config_ok(cfg);
    let state_ok = config_ok && well_formed(cfg, state);
    first_of(config_ok, fits & state_ok)
}

// "For restore and for making a fresh state, 3 judges lengths only."
pub fn begin_with_lengths(cfg: &[i32], state: &Lent, fits: bool) -> Result<(), Refusal>
    ensures { check_number result
        ≡ first_that_applies (begins_with_lengths cfg.now (as_found state.now) fits []) }
{
    let config_ok = config::config_ok(cfg);
    let state_ok = config_ok && lengths_fit(cfg, state);
    first_of(config_ok, fits & state_ok)
}
