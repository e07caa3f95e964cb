// Document 01, "Fresh: status 50h, K = h = g = 0, D = 0, memory empty (all bytes 0), cycles stopped, overflow clear."
#![tactic(auto)]

ghost use Rattle.std.specs.Prelude.{◌≡◌, true, [], ◌+◌, ◌*◌, ◌≤◌, pos, length, replicate};
ghost use Rattle.history.specs.StatusByte.{fresh_record};
ghost use Rattle.manual.specs.Configuration.{events};
ghost use Rattle.manual.specs.State.{record_width, stored, with_stored, all_stopped};
ghost use Rattle.manual.specs.Lent.{as_lent, keeps_loans};
ghost use Rattle.manual.specs.WellFormed.{lengths_fit};
ghost use Rattle.manual.specs.Answers.{lent_counts, of_answer, leaves};
ghost use Rattle.manual.specs.Calls.{fresh_records, fresh_state, fresh};

use manual::{Board, EventNumber, LentMut, Refusal};

// ---- the blocks

// "status 50h, K = h = g = 0", for one event; all other records stay.
fn write_fresh_record(records: &mut [u8], event: EventNumber)
    requires { record_width * event.0 + record_width ≤ length records.old }
    ensures { records.new ≡ with_stored event.0 (stored fresh_record) records.old }
{
    status::write_record(records, event, status::fresh_record());
}

// The same for every event.
fn fresh_records(cfg: &[i32], records: &mut [u8])
    requires { length records.old ≡ record_width * events cfg.now }
    ensures { records.new ≡ fresh_records (events cfg.now) }
{
    for event in 0..config::events(cfg) {
        write_fresh_record(records, EventNumber(event));
    }
}

// "D = 0", for every event; a restored state has it so too.
pub fn reset_numbers(debounce: &mut [i32])
    ensures { debounce.new ≡ replicate (length debounce.old) (pos 0) }
{
    debounce.fill(0);
}

// ---- the board

// "cycles stopped"
pub fn stopped_board(overflow: bool) -> Board
    ensures { result ≡ record { running = all_stopped; overflow = overflow } }
{
    Board {
        running: [false, false, false, false],
        overflow,
    }
}

// ---- the call

// The fresh state, made of any blocks whose lengths fit.
fn make_fresh(cfg: &[i32], state: &mut LentMut)
    requires { lengths_fit cfg.now (as_lent state.old) ≡ true }
    ensures loans { keeps_loans state.old state.new }
    ensures promise { as_lent state.new ≡ fresh_state cfg.now }
{
    fresh_records(cfg, state.records);
    reset_numbers(state.debounce);
    writing::zero_from(state.memory, 0);
    state.board = stopped_board(false);
}

// "Every call begins 2, 3. … For restore and for making a fresh state, 3 judges lengths only." Document 02, W7: "A
// slice of another length is 3. A fresh state zeroes all five."
pub fn fresh(cfg: &[i32], state: &mut LentMut, counts: &mut [u32]) -> Result<(), Refusal>
    ensures loans { keeps_loans state.old state.new }
    ensures leaves { leaves (of_answer result) [] (lent_counts counts.new) (as_lent state.new)
        ≡ fresh cfg.now (lent_counts counts.old) (as_lent state.old) }
{
    let fits = counts::fit(counts);
    judgement::begin_with_lengths(cfg, &state.as_found(), fits)?;
    make_fresh(cfg, state);
    counts::reset(counts);
    Ok(())
}
