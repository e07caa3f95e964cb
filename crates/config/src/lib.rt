// Document 01, "The parts the manager works on": reading the configuration, judging it, and the search of a trouble
// code.
#![tactic(auto)]

ghost use Rattle.std.specs.Prelude.{◌≡◌, true, [], ◌∷◌, ◌^◌, ◌*◌, ◌<◌, pos, negsuc};
ghost use Rattle.history.specs.Words.{holds};
ghost use Rattle.manual.specs.Words.{all_below, between, eq_z, nat_of};
ghost use Rattle.manual.specs.Configuration.{most_events, number_at, events, places, frame_bytes, entry_frames};
ghost use Rattle.manual.specs.Configuration.{column, code_of, priority_of, cycle_of, kind_of, low_of, high_of, up_of};
ghost use Rattle.manual.specs.Configuration.{down_of, jumps_of, limits_of, needed_of, row_ok, config_ok, has_trouble_code};
ghost use Rattle.manual.specs.Configuration.{first_with_code};
ghost use Rattle.config.specs.Rows.{number_of, RowWithin, RowsWithin, limits_is, part_of, of_kind};
ghost use Rattle.config.specs.Rows.{rises_here, row_fits};
ghost use Rattle.config.specs.Search.{search_is};
ghost use Rattle.config.specs.Halving.{NarrowedTo, Halved};

use manual::EventNumber;

// "Configuration: lent signed 32-bit numbers, three in front: n events …, M memory places …, F frame bytes"
const IN_FRONT: usize = 3;

const N_AT: usize = 0;

const M_AT: usize = 1;

const F_AT: usize = 2;

// "Then 13 per event, event 0 first"; document 02, W5: "one more configuration number per event, 14th"
const ROW_WIDTH: usize = manual::ROW_WIDTH;

// The numbers of a row, counted from 1 as the table does.
#[derive(Clone, Copy)]
enum Column {
    TroubleCode = 1,
    Priority = 2,
    Cycle = 3,
    Kind = 4,
    P = 5,
    Q = 6,
    Up = 7,
    Down = 8,
    Jumps = 9,
    Confirm = 10,
    Heal = 11,
    Age = 12,
    Indicator = 13,
    Needed = 14,
}

// "0 internal, 1 counter, 2 time"
pub const INTERNAL: usize = 0;

pub const COUNTER: usize = 1;

pub const TIME: usize = 2;

// The same as a row has them.
const KIND_INTERNAL: i32 = INTERNAL as i32;

const KIND_COUNTER: i32 = COUNTER as i32;

const LAST_KIND: i32 = TIME as i32;

// "3 | cycle | 0 to 3"
const LAST_CYCLE: i32 = manual::CYCLES as i32 - 1;

// ---- reading: a number past the end is 0, and so is a negative one where a count is read

fn number_at(cfg: &[i32], index: usize) -> i32
    ensures { result ≡ number_at cfg.now index }
{
    cfg.get(index).copied().unwrap_or(0)
}

fn count_of(number: i32) -> usize
    ensures { result ≡ nat_of number }
{
    number.max(0) as usize
}

fn count_at(cfg: &[i32], index: usize) -> usize
    ensures { result ≡ nat_of (number_at cfg.now index) }
{
    count_of(number_at(cfg, index))
}

// "n events (1 to 512)"
pub fn events(cfg: &[i32]) -> usize
    ensures { result ≡ events cfg.now }
{
    count_at(cfg, N_AT)
}

// "M memory places (1 to 64)"
pub fn places(cfg: &[i32]) -> usize
    ensures { result ≡ places cfg.now }
{
    count_at(cfg, M_AT)
}

// "F frame bytes (0 to 32)"
pub fn frame_bytes(cfg: &[i32]) -> usize
    ensures { result ≡ frame_bytes cfg.now }
{
    count_at(cfg, F_AT)
}

// Document 02, W6: of "M(3 + 2F)" the bytes of an entry's two frames.
pub fn entry_frames(cfg: &[i32]) -> usize
    ensures { result ≡ entry_frames cfg.now }
{
    2 * (number_at(cfg, F_AT).max(0) as usize)
}

// Number k of the event's row.
fn number_in_row(cfg: &[i32], event: EventNumber, k: Column) -> i32
    requires { event.0 < most_events }
    ensures { result ≡ column (number_of k) cfg.now event.0 }
{
    number_at(cfg, IN_FRONT + ROW_WIDTH * event.0 + (k as usize - 1))
}

fn count_in_row(cfg: &[i32], event: EventNumber, k: Column) -> usize
    requires { event.0 < most_events }
    ensures { result ≡ nat_of (column (number_of k) cfg.now event.0) }
{
    count_of(number_in_row(cfg, event, k))
}

// "1 | trouble code"
pub fn code_of(cfg: &[i32], event: EventNumber) -> usize
    requires { event.0 < most_events }
    ensures { result ≡ code_of cfg.now event.0 }
{
    count_in_row(cfg, event, Column::TroubleCode)
}

// "2 | priority | … 1 the most important"
pub fn priority_of(cfg: &[i32], event: EventNumber) -> usize
    requires { event.0 < most_events }
    ensures { result ≡ priority_of cfg.now event.0 }
{
    count_in_row(cfg, event, Column::Priority)
}

// "3 | cycle"
pub fn cycle_of(cfg: &[i32], event: EventNumber) -> usize
    requires { event.0 < most_events }
    ensures { result ≡ cycle_of cfg.now event.0 }
{
    count_in_row(cfg, event, Column::Cycle)
}

// "4 | debounce kind": INTERNAL, COUNTER or TIME
pub fn kind_of(cfg: &[i32], event: EventNumber) -> usize
    requires { event.0 < most_events }
    ensures { result ≡ kind_of cfg.now event.0 }
{
    count_in_row(cfg, event, Column::Kind)
}

// "5, 6 | P, Q": P
pub fn low_of(cfg: &[i32], event: EventNumber) -> i32
    requires { event.0 < most_events }
    ensures { result ≡ low_of cfg.now event.0 }
{
    number_in_row(cfg, event, Column::P)
}

// "5, 6 | P, Q": Q
pub fn high_of(cfg: &[i32], event: EventNumber) -> i32
    requires { event.0 < most_events }
    ensures { result ≡ high_of cfg.now event.0 }
{
    number_in_row(cfg, event, Column::Q)
}

// "7, 8 | up, down": up
pub fn up_of(cfg: &[i32], event: EventNumber) -> i32
    requires { event.0 < most_events }
    ensures { result ≡ up_of cfg.now event.0 }
{
    number_in_row(cfg, event, Column::Up)
}

// "7, 8 | up, down": down
pub fn down_of(cfg: &[i32], event: EventNumber) -> i32
    requires { event.0 < most_events }
    ensures { result ≡ down_of cfg.now event.0 }
{
    number_in_row(cfg, event, Column::Down)
}

// "9 | jumps | … 1 = jump up, 2 = jump down, 3 = both"
pub fn jumps_of(cfg: &[i32], event: EventNumber) -> usize
    requires { event.0 < most_events }
    ensures { result ≡ jumps_of cfg.now event.0 }
{
    count_in_row(cfg, event, Column::Jumps)
}

// What a row limits an event's record by.
#[derive(Clone, Copy)]
pub struct Limits {
    pub confirm: usize,
    pub heal: usize,
    pub age: usize,
    pub indicator: bool,
}

// "10, 11, 12 | C confirm, H heal, A age", and whether "13 | indicator" is 1
pub fn limits_of(cfg: &[i32], event: EventNumber) -> Limits
    requires { event.0 < most_events }
    ensures { limits_is result ≡ limits_of cfg.now event.0 }
{
    Limits {
        confirm: count_in_row(cfg, event, Column::Confirm),
        heal: count_in_row(cfg, event, Column::Heal),
        age: count_in_row(cfg, event, Column::Age),
        indicator: count_in_row(cfg, event, Column::Indicator) == 1,
    }
}

// A set of conditions as bits: 0, and so none, for a negative number.
fn set_of(number: i32) -> u32
    ensures { (result ≡ nat_of number) × (result < 2 ^ 31) }
{
    number.max(0) as u32
}

// "14th, for the set it needs"
pub fn needed_of(cfg: &[i32], event: EventNumber) -> u32
    requires { event.0 < most_events }
    ensures { (result ≡ needed_of cfg.now event.0) × (result < 2 ^ 31) }
{
    set_of(number_in_row(cfg, event, Column::Needed))
}

// ---- reading a row that lies within the configuration: nothing is tested

const PART_WIDTH: usize = IN_FRONT + ROW_WIDTH;

// The event's row with the three numbers before it: read as a configuration, it is the row of event 0. It is as long
// for every event, so that nothing is left of the tests by which a number past the end is 0.
pub fn part_of<'a>(cfg: &'a [i32], event: EventNumber) -> &'a [i32]
    requires { RowWithin cfg.now event.0 }
    ensures { result.now ≡ part_of cfg.now event.0 }
{
    let at = ROW_WIDTH * event.0;
    &cfg[at..at + PART_WIDTH]
}

// "1 | trouble code"
pub fn code_within(cfg: &[i32], event: EventNumber) -> usize
    requires { RowWithin cfg.now event.0 }
    ensures { result ≡ code_of cfg.now event.0 }
{
    code_of(part_of(cfg, event), EventNumber(0))
}

// "3 | cycle"
pub fn cycle_within(cfg: &[i32], event: EventNumber) -> usize
    requires { RowWithin cfg.now event.0 }
    ensures { result ≡ cycle_of cfg.now event.0 }
{
    cycle_of(part_of(cfg, event), EventNumber(0))
}

// "10, 11, 12 | C confirm, H heal, A age", and whether "13 | indicator" is 1
pub fn limits_within(cfg: &[i32], event: EventNumber) -> Limits
    requires { RowWithin cfg.now event.0 }
    ensures { limits_is result ≡ limits_of cfg.now event.0 }
{
    limits_of(part_of(cfg, event), EventNumber(0))
}

// ---- judging

// Whether a number is lo to hi, both allowed.
fn between(number: i32, lo: i32, hi: i32) -> bool
    ensures { result ≡ between lo hi number }
{
    lo <= number && number <= hi
}

fn front_in_range(cfg: &[i32], index: usize, lo: i32, hi: i32) -> bool
    ensures { result ≡ between lo hi (number_at cfg.now index) }
{
    between(number_at(cfg, index), lo, hi)
}

// An event whose row lies within the configuration: no read of it is tested.
#[derive(Clone, Copy)]
struct RowAt<'a> {
    cfg: &'a [i32],
    event: EventNumber,
    ghost inside: { RowWithin cfg.now event.0 },
}

impl<'a> RowAt<'a> {
    // Number k of the row.
    fn number(self, k: Column) -> i32
        ensures { result ≡ column (number_of k) self.entry.cfg.now self.entry.event.0 }
    {
        let event = self.event;
        self.cfg[IN_FRONT + ROW_WIDTH * event.0 + (k as usize - 1)]
    }

    fn in_range(self, k: Column, lo: i32, hi: i32) -> bool
        ensures { result ≡ between lo hi (column (number_of k) self.entry.cfg.now self.entry.event.0) }
    {
        between(self.number(k), lo, hi)
    }

    fn is_zero(self, k: Column) -> bool
        ensures { result ≡ eq_z (column (number_of k) self.entry.cfg.now self.entry.event.0) (pos 0) }
    {
        self.number(k) == 0
    }

    // The numbers 5 and 6 of a row of kind 0.
    fn unbounded(self) -> bool
        ensures { result
            ≡ holds
            (eq_z (column 5 self.entry.cfg.now self.entry.event.0) (pos 0) ∷ eq_z (column 6 self.entry.cfg.now self.entry.event.0) (pos 0)
            ∷ []) }
    {
        self.is_zero(Column::P) & self.is_zero(Column::Q)
    }

    // The same of kind 2.
    fn bounded(self) -> bool
        ensures { result
            ≡ holds
            (between (negsuc 29999) (negsuc 0) (column 5 self.entry.cfg.now self.entry.event.0)
            ∷ between (pos 1) (pos 30000) (column 6 self.entry.cfg.now self.entry.event.0) ∷ []) }
    {
        self.in_range(Column::P, -30_000, -1) & self.in_range(Column::Q, 1, 30_000)
    }

    // The numbers 7 to 9 of a row of kind 0 or 2.
    fn stepless(self) -> bool
        ensures { result
            ≡ holds
            (eq_z (column 7 self.entry.cfg.now self.entry.event.0) (pos 0) ∷ eq_z (column 8 self.entry.cfg.now self.entry.event.0) (pos 0)
            ∷ eq_z (column 9 self.entry.cfg.now self.entry.event.0) (pos 0) ∷ []) }
    {
        self.is_zero(Column::Up) & self.is_zero(Column::Down) & self.is_zero(Column::Jumps)
    }

    // The numbers 5 to 9 of a row of kind 1.
    fn counter_ok(self) -> bool
        ensures { result ≡ holds (of_kind (pos 1) self.entry.cfg.now self.entry.event.0) }
    {
        self.in_range(Column::P, -30_000, -1)
            & self.in_range(Column::Q, 1, 30_000)
            & self.in_range(Column::Up, 1, 30_000)
            & self.in_range(Column::Down, 1, 30_000)
            & self.in_range(Column::Jumps, 0, 3)
    }

    // The numbers 5 to 9 of a row; one of a kind that the table does not have is judged as kind 2, and fails by its
    // kind. So the kind is compared as it is, a negative one too.
    fn of_kind_ok(self) -> bool
        ensures { result
            ≡ holds (of_kind (column 4 self.entry.cfg.now self.entry.event.0) self.entry.cfg.now self.entry.event.0) }
    {
        let kind = self.number(Column::Kind);
        if kind == KIND_COUNTER {
            return self.counter_ok();
        }
        let no_steps = self.stepless();
        if kind == KIND_INTERNAL {
            return self.unbounded() & no_steps;
        }
        self.bounded() & no_steps
    }

    // The table's column "allowed", a line for each number of the row, but one for those that go by the kind.
    fn row_ok(self) -> bool
        ensures { result ≡ row_ok self.entry.cfg.now self.entry.event.0 }
    {
        self.in_range(Column::TroubleCode, 1, 16_777_214)
            & self.in_range(Column::Priority, 1, 255)
            & self.in_range(Column::Cycle, 0, LAST_CYCLE)
            & self.in_range(Column::Kind, 0, LAST_KIND)
            & self.of_kind_ok()
            & self.in_range(Column::Confirm, 1, 255)
            & self.in_range(Column::Heal, 1, 255)
            & self.in_range(Column::Age, 1, 255)
            & self.in_range(Column::Indicator, 0, 1)
            & self.in_range(Column::Needed, 0, 2_147_483_647)
    }

    // "strictly rising from event to event": the event's trouble code is above that of the event before.
    fn code_rises(self) -> bool
        ensures { result ≡ rises_here self.entry.cfg.now self.entry.event.0 }
    {
        if self.event.0 == 0 {
            return true;
        }
        let before = RowAt {
            cfg: self.cfg,
            event: EventNumber(self.event.0 - 1),
        };
        before.number(Column::TroubleCode) < self.number(Column::TroubleCode)
    }

    fn fits(self) -> bool
        ensures { result ≡ row_fits self.entry.cfg.now self.entry.event.0 }
    {
        self.code_rises() & self.row_ok()
    }
}

fn rows_fit(cfg: &[i32], n: usize) -> bool
    requires { RowsWithin cfg.now n }
    ensures { result ≡ all_below n (row_fits cfg.now) }
{
    let mut fit = true;
    for event in 0..n {
        let row = RowAt {
            cfg,
            event: EventNumber(event),
        };
        fit = fit & row.fits();
    }
    fit
}

// Whether the configuration keeps the table; "2 | configuration breaks the table above" is the answer where it does
// not. "the length is exactly 3 + 13n", with W5 3 + 14n, is judged once n is known to be at most 512, since n may be
// any number.
pub fn config_ok(cfg: &[i32]) -> bool
    ensures { result ≡ config_ok cfg.now }
{
    let front_fits = (IN_FRONT <= cfg.len())
        & front_in_range(cfg, N_AT, 1, 512)
        & front_in_range(cfg, M_AT, 1, 64)
        & front_in_range(cfg, F_AT, 0, 32);
    if !front_fits {
        return false;
    }
    let n = events(cfg);
    cfg.len() == IN_FRONT + ROW_WIDTH * n && rows_fit(cfg, n)
}

// ---- the search of a trouble code

// The rows where the search goes on, from low to high, both among them.
#[derive(Clone, Copy)]
struct Range {
    low: usize,
    high: usize,
}

// 9 halvings leave one of 512 rows. Each looks at one row at most, and the comparison at the one that is left: 10 rows.
const HALVINGS: usize = 9;

// The half of a range that has the first row whose code is not below the wanted one, or the last row where there is
// none. A range of one row stays.
fn halved(cfg: &[i32], range: Range, code: u32) -> Range
    requires { NarrowedTo cfg.now code range }
    ensures { Halved cfg.now code range result }
{
    if range.low == range.high {
        return range;
    }
    let middle = range.low + (range.high - range.low) / 2;
    if code_of(cfg, EventNumber(middle)) < code as usize {
        Range {
            low: middle + 1,
            high: range.high,
        }
    } else {
        Range {
            low: range.low,
            high: middle,
        }
    }
}

fn has_code(cfg: &[i32], event: EventNumber, code: u32) -> bool
    requires { event.0 < most_events }
    ensures { result ≡ has_trouble_code cfg.now code event.0 }
{
    code_of(cfg, event) == code as usize
}

// The first event with this trouble code. Trouble codes are "1 to 16,777,214": 0, FFFFFFh and anything above find
// nothing.
pub fn find_code(cfg: &[i32], code: u32) -> Option<EventNumber>
    requires { config_ok cfg.now ≡ true }
    ensures { search_is result ≡ first_with_code cfg.now code }
{
    let last = events(cfg) - 1;
    let mut range = Range { low: 0, high: last };
    for _ in 0..HALVINGS {
        range = halved(cfg, range, code);
    }
    if has_code(cfg, EventNumber(range.low), code) {
        Some(EventNumber(range.low))
    } else {
        None
    }
}
