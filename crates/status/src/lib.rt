// Document 01, "Status byte": the status byte, the steps of an event's record, and the records and debounce numbers in
// the lent blocks.
#![tactic(auto)]

ghost use Rattle.std.specs.Prelude.{◌≡◌, Bool, not, ◌&&◌, cond, ℕ, suc, ◌+◌, ◌-◌, ◌*◌, min, ◌≤◌, ◌<◌, eqb, ltb, pos, length, get_or, set};
ghost use Rattle.std.specs.Int.Bits.{bit_and, bit_or};
ghost use Rattle.history.specs.Words.{implies};
ghost use Rattle.history.specs.StatusByte.{Limits, status_of, fresh_record, clean_cycle};
ghost use Rattle.history.specs.StatusByte.{stop_a, counts_for_ageing, ages, stop_b};
ghost use Rattle.history.specs.WellFormed.{untested_is_fresh, faulty_has_failed, failed_is_pending, pending_has_cycles};
ghost use Rattle.history.specs.WellFormed.{well_formed_record};
ghost use Rattle.history.specs.History.{step, passed, start};
ghost use Rattle.manual.specs.State.{record_width, stored, stored_at, with_stored};
ghost use Rattle.status.specs.Records.{stored_is, record_is, limits, FailedIs, RoomToRise, StoppedIs};
ghost use Rattle.status.specs.Records.{rests_at_stop};
ghost use Rattle.status.specs.Clauses.{bytes_ok, is_limited, limits_ok};

use manual::EventNumber;

// "The eight bits have the names and weights of ISO 14229-1."
#[derive(Clone, Copy, PartialEq, Eq)]
pub struct Status(pub u8);

impl Status {
    pub const TEST_FAILED: u8 = 0x01;

    pub const TEST_FAILED_THIS_OPERATION_CYCLE: u8 = 0x02;

    pub const PENDING_DTC: u8 = 0x04;

    pub const CONFIRMED_DTC: u8 = 0x08;

    pub const TEST_NOT_COMPLETED_SINCE_LAST_CLEAR: u8 = 0x10;

    pub const TEST_FAILED_SINCE_LAST_CLEAR: u8 = 0x20;

    pub const TEST_NOT_COMPLETED_THIS_OPERATION_CYCLE: u8 = 0x40;

    pub const WARNING_INDICATOR_REQUESTED: u8 = 0x80;

    // "Fresh: status 50h"
    pub fn fresh() -> Status
        ensures { result.0 ≡ 0x50 }
    {
        Status(
            Status::TEST_NOT_COMPLETED_SINCE_LAST_CLEAR
                | Status::TEST_NOT_COMPLETED_THIS_OPERATION_CYCLE,
        )
    }

    // The status with the bits of the mask set.
    pub fn set(self, mask: u8) -> Status
        ensures { result.0 ≡ bit_or self.0 mask }
    {
        Status(self.0 | mask)
    }

    // The status with the bits of the mask clear.
    pub fn clear(self, mask: u8) -> Status
        ensures { result.0 ≡ bit_and self.0 (255 - mask) }
    {
        Status(self.0 & !mask)
    }

    // Sets the bits of the mask where a test holds, else leaves the status as it is.
    fn set_if(self, test: bool, mask: u8) -> Status
        ensures { result.0 ≡ cond test (bit_or self.0 mask) self.0 }
    {
        if test { self.set(mask) } else { self }
    }

    // Clears the bits of the mask where a test holds, else leaves the status as it is.
    fn clear_if(self, test: bool, mask: u8) -> Status
        ensures { result.0 ≡ cond test (bit_and self.0 (255 - mask)) self.0 }
    {
        if test { self.clear(mask) } else { self }
    }

    // Whether all bits of the mask are set.
    pub fn contains(self, mask: u8) -> bool
        ensures { result ≡ eqb (bit_and self.0 mask) mask }
    {
        self.0 & mask == mask
    }

    // Whether a bit of the mask is set.
    pub fn shares(self, mask: u8) -> bool
        ensures { result ≡ not (eqb (bit_and self.0 mask) 0) }
    {
        self.0 & mask != 0
    }
}

// "per event status, K (failed cycles), h (healing count), g (ageing count)"
#[derive(Clone, Copy, PartialEq, Eq)]
pub struct Record {
    pub status: Status,
    pub k: u8,
    pub h: u8,
    pub g: u8,
}

// An event's record after a failed result, and whether that is a fresh failure: then memory is told.
#[derive(Clone, Copy)]
pub struct AfterFailed {
    pub record: Record,
    pub fresh_failure: bool,
}

// An event's record after its cycle's stop, and whether the event aged: then its entry leaves memory.
#[derive(Clone, Copy)]
pub struct AfterStop {
    pub record: Record,
    pub aged: bool,
}

// ---- what happens to an event

// "Fresh: status 50h, K = h = g = 0", and so after "Clear …: each covered event gets status 50h, K = h = g = D = 0".
pub fn fresh_record() -> Record
    ensures { stored_is result ≡ stored fresh_record }
{
    Record {
        status: Status::fresh(),
        k: 0,
        h: 0,
        g: 0,
    }
}

// "Passed: clears 0, 4, 6."
pub fn passed(r: Record) -> Record
    ensures { (n : Limits) → stored_is result ≡ stored (step n passed (record_is r)) }
{
    let s = r.status;
    Record {
        status: s.clear(
            Status::TEST_FAILED
                | Status::TEST_NOT_COMPLETED_SINCE_LAST_CLEAR
                | Status::TEST_NOT_COMPLETED_THIS_OPERATION_CYCLE,
        ),
        ..r
    }
}

// A count that rises by one where a test holds, at most 255.
fn risen_if(test: bool, count: u8) -> u8
    ensures { result ≡ cond test (min 255 (suc count)) count }
{
    if test { count.saturating_add(1) } else { count }
}

// The same of a count that has room to rise.
fn rises_if(test: bool, count: u8) -> u8
    requires { count < 255 }
    ensures { result ≡ cond test (min 255 (suc count)) count }
{
    if test { count + 1 } else { count }
}

// A count that is 0 where a test holds.
fn zero_if(test: bool, count: u8) -> u8
    ensures { result ≡ cond test 0 count }
{
    if test { 0 } else { count }
}

// "Failed: if bit 1 was clear, K rises by one, at most 255. Sets 0, 1, 2, 5; clears 4, 6; h = g = 0. If K ≥ C, sets 3
// and, with indicator 1, 7. If bit 0 was clear before, it is a fresh failure and memory is told, last."
pub fn failed(confirm: usize, indicator: bool, r: Record) -> AfterFailed
    ensures { (H A : ℕ) → FailedIs (limits confirm H A indicator) r result }
{
    let s = r.status;
    let k = risen_if(!s.contains(Status::TEST_FAILED_THIS_OPERATION_CYCLE), r.k);
    let confirms = confirm <= k as usize;
    let tested = s
        .set(
            Status::TEST_FAILED
                | Status::TEST_FAILED_THIS_OPERATION_CYCLE
                | Status::PENDING_DTC
                | Status::TEST_FAILED_SINCE_LAST_CLEAR,
        )
        .clear(
            Status::TEST_NOT_COMPLETED_SINCE_LAST_CLEAR
                | Status::TEST_NOT_COMPLETED_THIS_OPERATION_CYCLE,
        );
    AfterFailed {
        record: Record {
            status: tested
                .set_if(indicator & confirms, Status::WARNING_INDICATOR_REQUESTED)
                .set_if(confirms, Status::CONFIRMED_DTC),
            k,
            h: 0,
            g: 0,
        },
        fresh_failure: !s.contains(Status::TEST_FAILED),
    }
}

// "Start of a stopped cycle: for its events clears 1, sets 6."
pub fn started(r: Record) -> Record
    ensures { (n : Limits) → stored_is result ≡ stored (step n start (record_is r)) }
{
    let s = r.status;
    Record {
        status: s
            .clear(Status::TEST_FAILED_THIS_OPERATION_CYCLE)
            .set(Status::TEST_NOT_COMPLETED_THIS_OPERATION_CYCLE),
        ..r
    }
}

// "if 1 and 6 are clear"
fn clean_cycle(s: Status) -> bool
    ensures { result ≡ clean_cycle (status_of s.0) }
{
    !s.shares(
        Status::TEST_FAILED_THIS_OPERATION_CYCLE | Status::TEST_NOT_COMPLETED_THIS_OPERATION_CYCLE,
    )
}

// "(a) if 1 and 6 are clear: bit 2 clear, K = 0, and if bit 7 is set h rises by one; at H, bit 7 clear and h = 0."
fn stop_a(heal: usize, r: Record) -> Record
    requires { r.h < 255 }
    ensures { (C A : ℕ) (i : Bool) → stored_is result ≡ stored (stop_a (limits C heal A i) (record_is r)) }
{
    let s = r.status;
    let clean = clean_cycle(s);
    let counts = clean & s.contains(Status::WARNING_INDICATOR_REQUESTED);
    let h = rises_if(counts, r.h);
    let heals = counts & (h as usize == heal);
    Record {
        status: s
            .clear_if(clean, Status::PENDING_DTC)
            .clear_if(heals, Status::WARNING_INDICATOR_REQUESTED),
        k: zero_if(clean, r.k),
        h: zero_if(heals, h),
        ..r
    }
}

// What counts for ageing. Document 02, W2: "only a cycle with bits 1 and 6 both clear at its stop".
fn counts_for_ageing(s: Status) -> bool
    ensures { result ≡ counts_for_ageing (status_of s.0) }
{
    clean_cycle(s)
}

// "(b) then", if the cycle counts for ageing "and 3 is set: g rises by one; at A the event ages: 3 and 7 clear, h = g =
// 0, its entry leaves memory."
fn stop_b(age: usize, r: Record) -> AfterStop
    requires { r.g < 255 }
    ensures { (C H : ℕ) (i : Bool)
        → (stored_is result.«record» ≡ stored (stop_b (limits C H age i) (record_is r))) ×
        (result.aged ≡ ages (limits C H age i) (record_is r)) }
{
    let s = r.status;
    let counts = counts_for_ageing(s) & s.contains(Status::CONFIRMED_DTC);
    let g = rises_if(counts, r.g);
    let ages = counts & (g as usize == age);
    AfterStop {
        record: Record {
            status: s.clear_if(
                ages,
                Status::CONFIRMED_DTC | Status::WARNING_INDICATOR_REQUESTED,
            ),
            h: zero_if(ages, r.h),
            g: zero_if(ages, g),
            ..r
        },
        aged: ages,
    }
}

// Whether neither (a) nor (b) has a thing to do: most records of a stop are so.
pub fn rests_at_stop(r: Record) -> bool
    ensures { result ≡ rests_at_stop (record_is r) }
{
    let s = r.status;
    let to_do = s.shares(
        Status::PENDING_DTC | Status::CONFIRMED_DTC | Status::WARNING_INDICATOR_REQUESTED,
    );
    !clean_cycle(s) | (!to_do & (r.k == 0))
}

// "Stop, for its events: (a) … (b) …": the record after both. The debounce number and the entry are the caller's.
pub fn stopped(heal: usize, age: usize, r: Record) -> AfterStop
    requires { RoomToRise r }
    ensures { (C : ℕ) (i : Bool) → StoppedIs (limits C heal age i) r result }
{
    stop_b(age, stop_a(heal, r))
}

// ---- "A state is well formed when …": the clauses on an event's record

// Where the first holds, the second does.
fn implies(a: bool, b: bool) -> bool
    ensures { result ≡ implies a b }
{
    if a { b } else { true }
}

// "bit 4 set means status is exactly 50h"
fn untested_is_fresh(s: Status) -> bool
    ensures { result ≡ untested_is_fresh (status_of s.0) }
{
    implies(
        s.contains(Status::TEST_NOT_COMPLETED_SINCE_LAST_CLEAR),
        s == Status::fresh(),
    )
}

// "bit 0, 2 or 3 set means bit 5 set"
fn faulty_has_failed(s: Status) -> bool
    ensures { result ≡ faulty_has_failed (status_of s.0) }
{
    implies(
        s.shares(Status::TEST_FAILED | Status::PENDING_DTC | Status::CONFIRMED_DTC),
        s.contains(Status::TEST_FAILED_SINCE_LAST_CLEAR),
    )
}

// "bit 1 set means bit 2 set and bit 6 clear"
fn failed_is_pending(s: Status) -> bool
    ensures { result ≡ failed_is_pending (status_of s.0) }
{
    implies(
        s.contains(Status::TEST_FAILED_THIS_OPERATION_CYCLE),
        s.contains(Status::PENDING_DTC)
            & !s.contains(Status::TEST_NOT_COMPLETED_THIS_OPERATION_CYCLE),
    )
}

// "K ≥ 1 exactly when bit 2 is set"
fn pending_has_cycles(r: Record) -> bool
    ensures { result ≡ pending_has_cycles (record_is r) }
{
    let s = r.status;
    (1 <= r.k) == s.contains(Status::PENDING_DTC)
}

// The clauses on an event's record that ask for no number of its row.
pub fn bytes_ok(r: Record) -> bool
    ensures { result ≡ bytes_ok (record_is r) }
{
    let s = r.status;
    let warns = s.contains(Status::WARNING_INDICATOR_REQUESTED);
    let confirmed = s.contains(Status::CONFIRMED_DTC);
    untested_is_fresh(s)
        & faulty_has_failed(s)
        & failed_is_pending(s)
        & implies(warns, confirmed)
        & pending_has_cycles(r)
        & implies(!warns, r.h == 0)
        & implies(!confirmed, r.g == 0)
}

// Those that ask for a limit: "bit 7 set means … indicator 1", "h < H", "g < A". C has no part in them.
pub fn limits_ok(heal: usize, age: usize, indicator: bool, r: Record) -> bool
    ensures { (C : ℕ) → result ≡ limits_ok (limits C heal age indicator) (record_is r) }
{
    let s = r.status;
    implies(s.contains(Status::WARNING_INDICATOR_REQUESTED), indicator)
        & ((r.h as usize) < heal)
        & ((r.g as usize) < age)
}

// Whether a limit has something to say of the record: bit 3 or 7 is set.
pub fn is_limited(r: Record) -> bool
    ensures { result ≡ is_limited (record_is r) }
{
    let s = r.status;
    s.shares(Status::CONFIRMED_DTC | Status::WARNING_INDICATOR_REQUESTED)
}

// Whether all clauses on an event's record hold.
pub fn record_ok(heal: usize, age: usize, indicator: bool, r: Record) -> bool
    ensures { (C : ℕ) → result ≡ well_formed_record (limits C heal age indicator) (record_is r) }
{
    bytes_ok(r) & limits_ok(heal, age, indicator, r)
}

// ---- the records and the debounce numbers in the lent blocks

// The event's record.
pub fn read_record(records: &[u8], event: EventNumber) -> Record
    requires { record_width * event.0 + record_width ≤ length records.now }
    ensures { stored_is result ≡ stored_at event.0 records.now }
{
    let e = event.0;
    let at = manual::RECORD_WIDTH * e;
    Record {
        status: Status(records[at]),
        k: records[at + 1],
        h: records[at + 2],
        g: records[at + 3],
    }
}

// Writes the event's record; all other bytes stay.
pub fn write_record(records: &mut [u8], event: EventNumber, r: Record)
    requires { record_width * event.0 + record_width ≤ length records.old }
    ensures { records.new ≡ with_stored event.0 (stored_is r) records.old }
{
    let e = event.0;
    let at = manual::RECORD_WIDTH * e;
    let s = r.status;
    records[at] = s.0;
    records[at + 1] = r.k;
    records[at + 2] = r.h;
    records[at + 3] = r.g;
}

// The event's status byte; 0 for an event whose byte lies past the end of the records. How many events have theirs
// within is known before a loop over events, so that one test is left in it.
pub fn status_of(records: &[u8], event: EventNumber) -> Status
    ensures { result.0 ≡ (stored_at event.0 records.now).status }
{
    let e = event.0;
    let whole = records.len() / manual::RECORD_WIDTH;
    let begun = (records.len() % manual::RECORD_WIDTH + 3) / manual::RECORD_WIDTH;
    if e < whole + begun {
        Status(records[manual::RECORD_WIDTH * e])
    } else {
        Status(0)
    }
}

// The event's status byte, where its record lies within the block.
pub fn status_within(records: &[u8], event: EventNumber) -> Status
    requires { record_width * event.0 + record_width ≤ length records.now }
    ensures { result.0 ≡ (stored_at event.0 records.now).status }
{
    let e = event.0;
    Status(records[manual::RECORD_WIDTH * e])
}

// The event's debounce number. "Debounce numbers: n lent signed 32-bit numbers, one D per event."
pub fn read_number(debounce: &[i32], event: EventNumber) -> i32
    requires { event.0 < length debounce.now }
    ensures { result ≡ get_or debounce.now event.0 (pos 0) }
{
    let e = event.0;
    debounce[e]
}

// Writes the event's debounce number; all other numbers stay.
pub fn write_number(debounce: &mut [i32], event: EventNumber, d: i32)
    requires { event.0 < length debounce.old }
    ensures { debounce.new ≡ set debounce.old event.0 d }
{
    let e = event.0;
    debounce[e] = d;
}
