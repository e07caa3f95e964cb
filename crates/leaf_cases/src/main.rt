// Runs the leaves of the manager on cases whose answers are written from document 01, and prints each case that
// differs, by its table and its line there, and how many ran and how many differed.
#![tactic(auto)]

ghost use Rattle.std.specs.Prelude.{◌≡◌, true, ◌≤◌, min, length};
ghost use Rattle.manual.specs.Words.{between};
ghost use Rattle.manual.specs.Configuration.{config_ok};
ghost use Rattle.debounce.specs.Rows.{SmallReport};

use config::Limits;
use debounce::{Debounced, Row};
use manual::Verdict;
use status::{Record, Status};
use text::Tally;
use transcript::{Cursor, Word};

mod tables;

// ---- reading a table

// The numbers of a text, and how many there are: no more than there is room for.
fn read_numbers(text: &[u8], numbers: &mut [i32]) -> usize
    ensures { result ≤ length numbers.new }
{
    let mut from = Cursor { at: 0 };
    for (place, number) in numbers.iter_mut().enumerate() {
        let Word::Number(read) = transcript::next_number(text, from) else {
            return place;
        };
        *number = read.value;
        from = read.next;
    }
    numbers.len()
}

// Number k of a case; 0 past its end.
fn number_at(case: &[i32], k: usize) -> i32 {
    case.get(k).copied().unwrap_or(0)
}

// 0 for a negative number.
fn count_at(case: &[i32], k: usize) -> usize {
    usize::try_from(number_at(case, k)).unwrap_or(0)
}

// A report's code or a tick's ms; one more than a tick may have where the table has more.
fn code_at(case: &[i32], k: usize) -> u32 {
    count_at(case, k).min(60_001) as u32
}

fn byte_at(case: &[i32], k: usize) -> u8 {
    u8::try_from(number_at(case, k)).unwrap_or(0)
}

// Four bits written as a number of four digits, 1010 for 10.
fn four_bits(digits: usize) -> usize
    ensures { result ≤ 135 }
{
    digits % 10 + digits / 10 % 10 * 2 + digits / 100 % 10 * 4 + digits / 1000 % 10 * 8
}

// A status written as its eight bits, bit 7 first.
fn status_at(case: &[i32], k: usize) -> Status {
    let digits = count_at(case, k);
    let byte = four_bits(digits / 10_000) * 16 + four_bits(digits);
    Status(u8::try_from(byte).unwrap_or(0))
}

// ---- configurations

// A configuration of one event of each debounce kind, and a number past its end.
fn base(kind: usize) -> [i32; 18]
    ensures { 18 ≡ length result }
{
    match kind {
        0 => [1, 1, 0, 1, 1, 0, 0, 0, 0, 0, 0, 0, 1, 1, 1, 0, 0, 0],
        1 => [1, 1, 0, 1, 1, 0, 1, -4, 4, 2, 1, 0, 2, 1, 3, 1, 0, 0],
        _ => [1, 1, 0, 1, 1, 0, 2, -500, 500, 0, 0, 0, 2, 1, 3, 1, 0, 0],
    }
}

fn put(cfg: &mut [i32], place: usize, number: i32) {
    if let Some(stored) = cfg.get_mut(place) {
        *stored = number;
    }
}

// 1 where the first numbers of these are an accepted configuration, 0 where they are not, 2 where there are not so
// many.
fn accepted(cfg: &[i32], len: usize) -> usize {
    match cfg.get(..len) {
        Some(lent) => usize::from(config::config_ok(lent)),
        None => 2,
    }
}

fn bound_agrees(case: &[i32]) -> bool {
    let mut cfg = base(count_at(case, 0));
    put(&mut cfg, count_at(case, 1), number_at(case, 2));
    accepted(&cfg, 17) == count_at(case, 3)
}

fn length_agrees(case: &[i32]) -> bool {
    let cfg = base(1);
    accepted(&cfg, count_at(case, 0)) == count_at(case, 1)
}

// 10 for event 0, 20 for event 1, and so on.
fn code_after(event: usize) -> i32 {
    if event < 1000 {
        (10 * event + 10) as i32
    } else {
        0
    }
}

// A number of the rows of kind 0, counted from the first row on: trouble code, priority, C, H and A, all others 0.
fn in_rows(place: usize) -> i32 {
    match place % manual::ROW_WIDTH {
        0 => code_after(place / manual::ROW_WIDTH),
        1 | 9 | 10 | 11 => 1,
        _ => 0,
    }
}

fn fill_rows(cfg: &mut [i32]) {
    if let Some(rows) = cfg.get_mut(3..) {
        for (place, number) in rows.iter_mut().enumerate() {
            *number = in_rows(place);
        }
    }
}

// Rows of kind 0 with rising trouble codes, then n, M 1, F 0 and the first two codes put in.
fn codes_agree(case: &[i32]) -> bool {
    let mut cfg = [0; 7185];
    fill_rows(&mut cfg);
    put(&mut cfg, 0, number_at(case, 0));
    put(&mut cfg, 1, 1);
    put(&mut cfg, 3, number_at(case, 2));
    put(&mut cfg, 17, number_at(case, 3));
    accepted(&cfg, count_at(case, 1)) == count_at(case, 4)
}

// ---- search

// Whether the search of a trouble code answers this event; the number of events where none has the code.
fn is_at(cfg: &[i32], code: u32, event: usize) -> bool
    requires { config_ok cfg.now ≡ true }
{
    match config::find_code(cfg, code) {
        Some(found) => found.0 == event,
        None => config::events(cfg) == event,
    }
}

// A trouble code of 32 bits from its part above FFFFFFh and the rest.
fn wide_code(above: usize, rest: usize) -> u32 {
    if above <= 255 && rest <= 16_777_215 {
        (above * 16_777_216 + rest) as u32
    } else {
        0
    }
}

// Whether the case's code, in two parts, is at its event.
fn code_agrees(cfg: &[i32], case: &[i32]) -> bool {
    let code = wide_code(count_at(case, 0), count_at(case, 1));
    config::config_ok(cfg) && is_at(cfg, code, count_at(case, 2))
}

fn search_agrees(case: &[i32]) -> bool {
    let mut cfg = [0; 73];
    read_numbers(&tables::SEARCHED, &mut cfg);
    code_agrees(&cfg, case)
}

// Whether each of the ten trouble codes is at the event that the number behind it says, 0 where the last is missing. A
// case of fewer does not agree.
fn pairs_agree(cfg: &[i32], pairs: &[i32]) -> bool
    requires { config_ok cfg.now ≡ true }
{
    19 <= pairs.len()
        && pairs.chunks(2).all(|pair| is_at(
            cfg,
            wide_code(0, count_at(pair, 0)),
            count_at(pair, 1),
        ))
}

// The same of the first n rows, once they are judged.
fn pairs_agree_below(cfg: &[i32], n: usize, pairs: &[i32]) -> bool {
    if 512 < n {
        return false;
    }
    match cfg.get(..3 + manual::ROW_WIDTH * n) {
        Some(rows) if config::config_ok(rows) => pairs_agree(rows, pairs),
        _ => false,
    }
}

// Rows of kind 0 with the trouble codes 10, 20, 30 and so on, then n, M 1 and F 0.
fn long_search_agrees(case: &[i32]) -> bool {
    let mut cfg = [0; manual::MOST_NUMBERS];
    fill_rows(&mut cfg);
    put(&mut cfg, 0, number_at(case, 0));
    put(&mut cfg, 1, 1);
    pairs_agree_below(&cfg, count_at(case, 0), case.get(1..).unwrap_or(&[]))
}

// ---- debouncing

fn between(number: i32, lo: i32, hi: i32) -> bool
    ensures { result ≡ between lo hi number }
{
    lo <= number && number <= hi
}

// Whether the numbers are as small as debouncing asks.
fn small(row: Row, d: i32) -> bool
    ensures { result ≡ true → SmallReport row d }
{
    between(row.low, -30_000, 30_000)
        & between(row.high, -30_000, 30_000)
        & between(row.up, -30_000, 30_000)
        & between(row.down, -30_000, 30_000)
        & between(d, -30_001, 30_001)
}

fn verdict_number(verdict: Verdict) -> usize {
    match verdict {
        Verdict::None => 0,
        Verdict::Passed => 1,
        Verdict::Failed => 2,
    }
}

// Whether debouncing answered the case's two last numbers.
fn answers(answer: Debounced, d: i32, verdict: usize) -> bool {
    (answer.number == d) & (verdict_number(answer.verdict) == verdict)
}

fn report_answers(row: Row, code: u32, d: i32, new: i32, verdict: usize) -> bool {
    small(row, d) && answers(debounce::report_step(row, code, d), new, verdict)
}

fn report_agrees(case: &[i32]) -> bool {
    let row = Row {
        kind: count_at(case, 0),
        low: number_at(case, 1),
        high: number_at(case, 2),
        up: number_at(case, 3),
        down: number_at(case, 4),
        jumps: count_at(case, 5),
    };
    report_answers(
        row,
        code_at(case, 6),
        number_at(case, 7),
        number_at(case, 8),
        count_at(case, 9),
    )
}

fn tick_answers(row: Row, ms: u32, d: i32, new: i32, verdict: usize) -> bool {
    ms <= 60_000 && small(row, d) && answers(debounce::tick_step(row, ms, d), new, verdict)
}

fn tick_agrees(case: &[i32]) -> bool {
    let row = Row {
        kind: 2,
        low: number_at(case, 0),
        high: number_at(case, 1),
        up: 0,
        down: 0,
        jumps: 0,
    };
    tick_answers(
        row,
        code_at(case, 2),
        number_at(case, 3),
        number_at(case, 4),
        count_at(case, 5),
    )
}

// ---- status

// A record after a step, and 1 where memory is told of a fresh failure or of an event that aged.
#[derive(Clone, Copy, PartialEq, Eq)]
struct After {
    record: Record,
    told: usize,
}

fn record_at(case: &[i32], k: usize) -> Record
    requires { k ≤ 9 }
{
    Record {
        status: status_at(case, k),
        k: byte_at(case, k + 1),
        h: byte_at(case, k + 2),
        g: byte_at(case, k + 3),
    }
}

fn after_failed(limits: Limits, r: Record) -> After {
    let after = status::failed(limits.confirm, limits.indicator, r);
    After {
        record: after.record,
        told: usize::from(after.fresh_failure),
    }
}

// A told of 2 where a count has no room to rise: no case is so.
fn after_stop(limits: Limits, r: Record) -> After {
    if r.h == 255 || r.g == 255 {
        return After { record: r, told: 2 };
    }
    let after = status::stopped(limits.heal, limits.age, r);
    After {
        record: after.record,
        told: usize::from(after.aged),
    }
}

fn after_step(limits: Limits, step: usize, r: Record) -> After {
    match step {
        0 => After {
            record: status::started(r),
            told: 0,
        },
        1 => after_stop(limits, r),
        2 => After {
            record: status::passed(r),
            told: 0,
        },
        3 => after_failed(limits, r),
        _ => After {
            record: status::fresh_record(),
            told: 0,
        },
    }
}

// What the numbers of a case from k on say.
fn after_at(case: &[i32], k: usize) -> After
    requires { k ≤ 9 }
{
    After {
        record: record_at(case, k),
        told: count_at(case, k + 4),
    }
}

// The step from the record that the case before left.
fn story_agrees(case: &[i32], so_far: Record) -> bool {
    let limits = Limits {
        confirm: 2,
        heal: 1,
        age: 3,
        indicator: true,
    };
    let step = count_at(case, 0);
    after_step(limits, step, so_far) == after_at(case, 1)
}

fn step_agrees(case: &[i32]) -> bool {
    let limits = Limits {
        confirm: count_at(case, 0),
        heal: count_at(case, 1),
        age: count_at(case, 2),
        indicator: count_at(case, 3) == 1,
    };
    let step = count_at(case, 8);
    after_step(limits, step, record_at(case, 4)) == after_at(case, 9)
}

fn record_agrees(case: &[i32]) -> bool {
    let indicator = count_at(case, 2) == 1;
    let ok = status::record_ok(
        count_at(case, 0),
        count_at(case, 1),
        indicator,
        record_at(case, 3),
    );
    usize::from(ok) == count_at(case, 7)
}

// ---- running

fn say(words: &[u8]) {
    io::write_all(1, words);
}

// A case that differs, by its table's name in tables.rt and its line there.
fn say_case(table: &[u8], line: usize) {
    say(table);
    say(b": case ");
    io::print_decimal(1, line as u64);
    say(b" differs\n");
}

// Runs the cases of a table, each of width numbers, and says which differ.
fn run<F: FnMut(&[i32]) -> bool>(
    tally: &mut Tally,
    table: &[u8],
    text: &[u8],
    width: usize,
    mut agrees: F,
)
    requires positive { 1 ≤ width }
    requires callable { F.IsAlwaysCallable agrees }
{
    let mut numbers = [0; 1000];
    let end = read_numbers(text, &mut numbers);
    for (place, case) in numbers[..end].chunks(width).enumerate() {
        let same = agrees(case);
        tally.count(same);
        if !same {
            say_case(table, place + 1);
        }
    }
}

fn configurations() {
    let mut tally = Tally::new();
    run(&mut tally, b"BOUNDS", &tables::BOUNDS, 4, bound_agrees);
    run(&mut tally, b"LENGTHS", &tables::LENGTHS, 2, length_agrees);
    run(&mut tally, b"CODES", &tables::CODES, 5, codes_agree);
    tally.say(b"configurations");
}

fn search() {
    let mut tally = Tally::new();
    run(&mut tally, b"SEARCHES", &tables::SEARCHES, 3, search_agrees);
    run(
        &mut tally,
        b"LONG_SEARCHES",
        &tables::LONG_SEARCHES,
        21,
        long_search_agrees,
    );
    tally.say(b"search");
}

fn debouncing() {
    let mut tally = Tally::new();
    run(&mut tally, b"REPORTS", &tables::REPORTS, 10, report_agrees);
    run(&mut tally, b"TICKS", &tables::TICKS, 6, tick_agrees);
    tally.say(b"debouncing");
}

fn status() {
    let mut tally = Tally::new();
    let mut so_far = status::fresh_record();
    run(&mut tally, b"STORY", &tables::STORY, 6, |case| {
        let agrees = story_agrees(case, so_far);
        so_far = record_at(case, 1);
        agrees
    });
    run(&mut tally, b"STEPS", &tables::STEPS, 14, step_agrees);
    run(&mut tally, b"RECORDS", &tables::RECORDS, 8, record_agrees);
    tally.say(b"status");
}

fn main() {
    configurations();
    search();
    debouncing();
    status();
}
