// Document 01, "Clear, by one trouble code or FFFFFFh for all, in any cycle state".
#![tactic(auto)]

ghost use Rattle.std.specs.Prelude.{◌≡◌, true, List, [], ◌∷◌, ℕ, ◌*◌, length};
ghost use Rattle.manual.specs.declared.Board.{Board};
ghost use Rattle.manual.specs.Words.{for_below};
ghost use Rattle.manual.specs.Configuration.{Configuration, events, config_ok};
ghost use Rattle.manual.specs.State.{record_width, lent};
ghost use Rattle.manual.specs.Lent.{as_found, as_lent, keeps_loans};
ghost use Rattle.manual.specs.Answers.{lent_counts, ◌if◌, first_that_applies, of_answer, leaves};
ghost use Rattle.manual.specs.Counts.{rise_of, numbers, carries_past};
ghost use Rattle.manual.specs.Calls.{begins, covers, unknown_code, overflow_cleared, cleared, clear_log, clear_rules};
ghost use Rattle.manual.specs.Calls.{clear_code};
ghost use Rattle.config.specs.Rows.{RowWithin};
ghost use Rattle.counts.specs.Near.{AreFive};
ghost use Rattle.judgement.specs.Checks.{check_number};
ghost use Rattle.one_event.specs.Ready.{EventFits};
ghost use Rattle.one_event.specs.Steps.{resetting};
ghost use Rattle.clearing.specs.Covered.{MayClear, clears_covered};

use manual::{EventNumber, Lent, LentMut, Refusal, Rise};

// "FFFFFFh for all"
const FOR_ALL: u32 = 0xFFFFFF;

// ---- which events a code covers

// "4 | no such … trouble code": no event has it, and it is not FFFFFFh.
pub fn is_unknown(cfg: &[i32], code: u32) -> bool
    requires { config_ok cfg.now ≡ true }
    ensures { result ≡ unknown_code cfg.now code }
{
    if code == FOR_ALL {
        return false;
    }
    config::find_code(cfg, code).is_none()
}

// "Clear, by one trouble code or FFFFFFh for all"
fn covers(cfg: &[i32], code: u32, event: EventNumber) -> bool
    requires { RowWithin cfg.now event.0 }
    ensures { result ≡ covers cfg.now code event.0 }
{
    (code == FOR_ALL) | (config::code_within(cfg, event) == code as usize)
}

// ---- clearing them

// "each covered event gets status 50h, K = h = g = D = 0, its entry leaves"
fn clear_if_covered(cfg: &[i32], state: &mut LentMut, code: u32, event: EventNumber)
    requires { EventFits cfg.now (as_lent state.old) event.0 }
    ensures loans { keeps_loans state.old state.new }
    ensures promise { as_lent state.new ≡ clears_covered cfg.now code event.0 (as_lent state.old) }
{
    if covers(cfg, code, event) {
        one_event::clears(cfg, state, event);
    }
}

// "clearing all also clears overflow"
fn clear_overflow(state: &mut LentMut, code: u32)
    ensures loans { keeps_loans state.old state.new }
    ensures promise { (cfg : Configuration) → as_lent state.new ≡ overflow_cleared cfg code (as_lent state.old) }
{
    state.board.overflow = state.board.overflow & (code != FOR_ALL);
}

// Event by event, each that the code covers.
fn clear_each(cfg: &[i32], state: &mut LentMut, code: u32)
    requires { MayClear cfg.now (as_lent state.old) }
    ensures loans { keeps_loans state.old state.new }
    ensures promise { as_lent state.new ≡ cleared cfg.now code (as_lent state.old) }
{
    for event in 0..config::events(cfg) {
        clear_if_covered(cfg, state, code, EventNumber(event));
    }
    clear_overflow(state, code);
}

// "status 50h, K = h = g = D = 0", for every event.
fn reset_all(cfg: &[i32], records: &mut [u8], debounce: &mut [i32])
    requires { (length records.old ≡ record_width * events cfg.now) ×
        (length debounce.old ≡ events cfg.now) }
    ensures { (m : List ℕ) (b : Board)
        → lent records.new debounce.new m b
        ≡ for_below (events cfg.now) (resetting cfg.now)
        (lent records.old debounce.old m b) }
{
    let n = config::events(cfg);
    for event in 0..n {
        one_event::resets(records, debounce, EventNumber(event));
    }
}

// "FFFFFFh for all": every entry is that of an event, so memory is empty after it. No entry is searched, no gap closed.
fn clear_all(cfg: &[i32], state: &mut LentMut)
    requires { MayClear cfg.now (as_lent state.old) }
    ensures loans { keeps_loans state.old state.new }
    ensures promise { as_lent state.new ≡ cleared cfg.now 0xFFFFFF (as_lent state.old) }
{
    writing::zero_from(state.memory, 0);
    reset_all(cfg, state.records, state.debounce);
    clear_overflow(state, FOR_ALL);
}

// Each that the code covers, or all at once.
fn clear_events(cfg: &[i32], state: &mut LentMut, code: u32)
    requires { MayClear cfg.now (as_lent state.old) }
    ensures loans { keeps_loans state.old state.new }
    ensures promise { as_lent state.new ≡ cleared cfg.now code (as_lent state.old) }
{
    if code == FOR_ALL {
        return clear_all(cfg, state);
    }
    clear_each(cfg, state, code);
}

// The work of a clear, on the lent blocks or on copies; a diagnostic request does the same. It stores nothing: the
// entries that are gone after it were cleared. Answers what it adds to the counts.
pub fn clear_covered(cfg: &[i32], state: &mut LentMut, code: u32) -> Rise
    requires { MayClear cfg.now (as_lent state.old) }
    ensures loans { keeps_loans state.old state.new }
    ensures promise { as_lent state.new ≡ cleared cfg.now code (as_lent state.old) }
    ensures rise { numbers result ≡ rise_of (clear_log cfg.now code (as_lent state.old)) }
{
    let before = memory::entry_count(state.as_found().memory);
    clear_events(cfg, state, code);
    let after = memory::entry_count(state.as_found().memory);
    counts::cleared_rise((before - after) as u32)
}

// ---- what a clear would add to the counts

// "whose whole rise would carry any count past 4,294,967,295". Only where a count is near that is the clear rehearsed,
// on copies. A diagnostic request that clears is judged so too.
pub fn carries_past(cfg: &[i32], state: &Lent, code: u32, counts: &[u32]) -> bool
    requires { (MayClear cfg.now (as_found state.now)) × (AreFive counts.now) }
    ensures { result ≡ carries_past (clear_log cfg.now code (as_found state.now)) counts.now }
{
    if counts::some_near(counts) {
        let rise = rehearsal::on_copies(state, |copies| clear_covered(cfg, copies, code));
        return counts::some_past(counts, rise);
    }
    false
}

// ---- the call

// "clear 4"
fn judge_code(cfg: &[i32], code: u32) -> Result<(), Refusal>
    requires { config_ok cfg.now ≡ true }
    ensures { check_number result ≡ first_that_applies ((4 if unknown_code cfg.now code) ∷ []) }
{
    if is_unknown(cfg, code) {
        return Err(Refusal::NoSuch);
    }
    Ok(())
}

// "Every call begins 2, 3. Then: … clear 4". `fits` says whether what is lent beside the state has the right length.
fn judge_known(cfg: &[i32], state: &Lent, fits: bool, code: u32) -> Result<(), Refusal>
    ensures { check_number result
        ≡ first_that_applies
        (begins cfg.now (as_found state.now) fits ((4 if unknown_code cfg.now code) ∷ [])) }
{
    judgement::begin(cfg, state, fits)?;
    judge_code(cfg, code)
}

// Then document 02's W7: "refused with new number 12, checked last".
fn judge(cfg: &[i32], state: &Lent, code: u32, counts: &[u32]) -> Result<(), Refusal>
    ensures { check_number result
        ≡ first_that_applies (clear_rules cfg.now code (lent_counts counts.now) (as_found state.now)) }
{
    let fits = counts::fit(counts);
    judge_known(cfg, state, fits, code)?;
    rehearsal::limit_test(carries_past(cfg, state, code, counts))
}

// "Clear, by one trouble code or FFFFFFh for all, in any cycle state: each covered event gets status 50h, K = h = g = D
// = 0, its entry leaves; clearing all also clears overflow." The counts rise by the entries that leave.
pub fn clear(cfg: &[i32], state: &mut LentMut, code: u32, counts: &mut [u32]) -> Result<(), Refusal>
    ensures loans { keeps_loans state.old state.new }
    ensures promise { leaves (of_answer result) [] (lent_counts counts.new) (as_lent state.new)
        ≡ clear_code cfg.now code (lent_counts counts.old) (as_lent state.old) }
{
    judge(cfg, &state.as_found(), code, counts)?;
    let rise = clear_covered(cfg, state, code);
    counts::raise(counts, rise);
    Ok(())
}
