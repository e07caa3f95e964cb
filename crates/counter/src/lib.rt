// Document 02, W1, "Show how near a fault is": the fault detection counter of an event.
#![tactic(auto)]

ghost use Rattle.std.specs.Prelude.{◌≡◌, cond, List, ℕ, ◌-◌, ◌*◌, ◌/◌, ◌≤◌, ◌<◌, eqb, get_or, pos, nat_abs};
ghost use Rattle.history.specs.StatusByte.{status_of};
ghost use Rattle.manual.specs.declared.Board.{Board};
ghost use Rattle.manual.specs.Configuration.{most_events};
ghost use Rattle.manual.specs.State.{lent};
ghost use Rattle.manual.specs.Counter.{share, debounced_counter, internal_counter, counter_in};

use manual::EventNumber;
use status::Status;

// How far a number lies from 0, in 64 bits.
fn magnitude(z: i32) -> u64
    ensures { result ≡ nat_abs z }
{
    u64::from(z.unsigned_abs())
}

// "Time kind: the same with |D| − 1 in place of |D|, and 0 when D is 0."
fn distance(kind: usize, d: i32) -> u64
    ensures { result ≡ cond (eqb kind 2) (nat_abs d - 1) (nat_abs d) }
{
    let size = magnitude(d);
    if kind != config::TIME {
        return size;
    }
    size.saturating_sub(1)
}

// The part of a whole that a distance has of its end, "rounded down". No accepted row of kinds 1 and 2 has an end of 0.
fn share(whole: u64, distance: u64, end: i32) -> u64
    requires { (whole ≤ 128) × (distance ≤ 2147483648) }
    ensures { result ≡ share whole distance end }
{
    (whole * distance).checked_div(magnitude(end)).unwrap_or(0)
}

// "Counter kind: 127·D/Q rounded down for D ≥ 0, and minus (128·|D|/|P| rounded down) below 0."
fn debounced(cfg: &[i32], event: EventNumber, d: i32) -> i64
    requires { event.0 < most_events }
    ensures { result ≡ debounced_counter cfg.now event.0 d }
{
    let far = distance(config::kind_of(cfg, event), d);
    if d < 0 {
        let below = share(128, far, config::low_of(cfg, event));
        return -(below as i64);
    }
    share(127, far, config::high_of(cfg, event)) as i64
}

// "Kind 0: 127 when bit 0 is set, else −128 when bit 4 is clear, else 0."
fn internal(status: Status) -> i64
    ensures { result ≡ internal_counter (status_of status.0) }
{
    if status.contains(Status::TEST_FAILED) {
        return 127;
    }
    if status.contains(Status::TEST_NOT_COMPLETED_SINCE_LAST_CLEAR) {
        return 0;
    }
    -128
}

// The event's D; 0 past the end.
fn number_of(debounce: &[i32], event: EventNumber) -> i32
    ensures { result ≡ get_or debounce.now event.0 (pos 0) }
{
    debounce.get(event.0).copied().unwrap_or(0)
}

// The event's fault detection counter, from its row, D and status. Any row, number and record will do: in 64 bits
// nothing overflows, and in a well-formed state the counter lies in −128..127.
pub fn counter_of(cfg: &[i32], records: &[u8], debounce: &[i32], event: EventNumber) -> i64
    requires { event.0 < most_events }
    ensures { (m : List ℕ) (b : Board)
        → result ≡ counter_in cfg.now (lent records.now debounce.now m b) event.0 }
{
    if config::kind_of(cfg, event) == config::INTERNAL {
        return internal(status::status_of(records, event));
    }
    debounced(cfg, event, number_of(debounce, event))
}
