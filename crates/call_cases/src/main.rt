// Runs the case files through the sixteen calls, and prints the file and the line of each case that differs, and for
// each file how many calls ran and how many differed.
//
// A line of a case file begins with
//   config  a new story: the fresh state under this configuration
//   ~       the configuration that is lent to the next call only
//   %       the state and the counts that are lent to the next call
//   >       a call, and in the next line, which begins with <, what it answers
//   =       those after the call; where there is none, they are as before
//   #       a remark
#![tactic(auto)]

ghost use Rattle.std.specs.Prelude.{◌≤◌};
ghost use Rattle.manual.specs.Lent.{keeps_loans};

use manual::{
    Board, EventNumber, FramePart, Lent, LentMut, Paint, Refusal, StillMissing, Verdict, Which,
};
use reporting::{Report, Tick};
use std::fs::File;
use std::os::fd::AsRawFd;
use std::rt::Files;
use text::Tally;

// How much of each block is lent, and the board.
#[derive(Clone, Copy)]
struct Loan {
    config: usize,
    records: usize,
    debounce: usize,
    memory: usize,
    counts: usize,
    board: Board,
}

// The blocks of a story, each longer than the longest that fits, since a case may lend more than that.
#[derive(Drop)]
struct Blocks {
    records: [u8; 2112],
    debounce: [i32; 528],
    memory: [u8; 4352],
    counts: [u32; 16],
}

// The configuration of a story, and the one that is lent to the next call only.
#[derive(Drop)]
struct Configs {
    own: [i32; 7232],
    other: [i32; 7232],
}

// The line that was read last, the one behind it where that has an answer, and the one that has the awaited state.
#[derive(Drop)]
struct Texts {
    line: [u8; 32768],
    says: [u8; 32768],
    want: [u8; 32768],
}

// The line of a call, and the one behind it, which has the answer.
#[derive(Clone, Copy)]
struct Asked<'a> {
    line: &'a [u8],
    says: &'a [u8],
}

// A case whose blocks are still to be compared: whether it is a call or the first fresh state, whether its answer
// agrees, and its line.
#[derive(Clone, Copy)]
struct Case {
    is_call: bool,
    agrees: bool,
    line: u32,
}

// A story so far.
#[derive(Clone, Copy)]
struct Story {
    loan: Loan,
    // how much of the configuration is lent to the next call, where it is lent one of its own
    other: Option<usize>,
    case: Option<Case>,
    // the calls that ran, the cases that differed
    tally: Tally,
    // the line of the case that was last found to differ, until it is told
    differing: Option<u32>,
    // the line that was read last, and whether the file is at its end
    line: u32,
    ended: bool,
}

#[derive(Clone, Copy)]
enum Call {
    Report,
    Diagnose,
    Reads(Reading),
    Writes(Plain),
}

// The calls that only read.
#[derive(Clone, Copy)]
enum Reading {
    ReadStatus,
    ReadCounter,
    ReadMissing,
    ReadTable,
    ReadPaint,
    ListGrey,
    ReadFrame,
    Save,
}

// The calls that answer a number alone.
#[derive(Clone, Copy)]
enum Plain {
    Fresh,
    Tick,
    Start,
    Stop,
    Clear,
    Restore,
}

// The first n of these, or all where there are fewer.
fn front<T>(items: &[T], n: usize) -> &[T] {
    &items[..text::most(n, items)]
}

// Puts a line at the front, and 0 behind it.
fn copy(from: &[u8], to: &mut [u8]) {
    for (place, byte) in to.iter_mut().zip(from.iter().chain(&[0])) {
        *place = *byte;
    }
}

// ---- states

fn is_one(flags: &[u8], at: usize) -> bool {
    text::byte_at(flags, at) == b'1'
}

// The board of a line that begins with = or %.
fn read_board(line: &[u8]) -> Board {
    let flags = text::word(line, 4);
    Board {
        running: [
            is_one(flags, 0),
            is_one(flags, 1),
            is_one(flags, 2),
            is_one(flags, 3),
        ],
        overflow: is_one(text::word(line, 5), 0),
    }
}

fn same_board(a: Board, b: Board) -> bool {
    a.running == b.running && a.overflow == b.overflow
}

// Whether the blocks, as far as they are lent, are the state of a line that begins with = or %.
fn as_awaited(loan: &Loan, want: &[u8], blocks: &Blocks) -> bool {
    let debounce = front(&blocks.debounce, loan.debounce);
    let counts = front(&blocks.counts, loan.counts);
    text::same_bytes(text::word(want, 1), front(&blocks.records, loan.records))
        && text::same_numbers(text::word(want, 2), debounce, text::integer)
        && text::same_bytes(text::word(want, 3), front(&blocks.memory, loan.memory))
        && same_board(loan.board, read_board(want))
        && text::same_numbers(text::word(want, 6), counts, text::decimal_32)
}

// ---- answers, each against the line that begins with <

fn same_value(says: &[u8], k: usize, value: u64) -> bool {
    text::decimal(text::word(says, k)) == value
}

fn same_number<T: Drop>(says: &[u8], answer: Result<T, Refusal>) -> bool {
    text::stands(says, 0, b"< ") && same_value(says, 1, u64::from(answers::number(answer)))
}

fn same_verdict(says: &[u8], verdict: Verdict) -> bool {
    let word = text::word(says, 2);
    match verdict {
        Verdict::None => word.starts_with(b"none"),
        Verdict::Passed => word.starts_with(b"0"),
        Verdict::Failed => word.starts_with(b"1"),
    }
}

fn same_paint(says: &[u8], paint: Paint) -> bool {
    let word = text::word(says, 2);
    match paint {
        Paint::Grey => word.starts_with(b"grey"),
        Paint::Red => word.starts_with(b"red"),
        Paint::Live => word.starts_with(b"live"),
    }
}

// Whether the frame stands where the line has it as from:to, and the part has the bytes that stand there in the memory
// block.
fn same_frame(says: &[u8], frame: FramePart, memory: &[u8], part: &[u8]) -> bool {
    let place = text::word(says, 2);
    let from = text::decimal(place);
    let to = text::decimal(text::behind(place, b':'));
    if to < from {
        return false;
    }
    let length = to - from;
    frame.start as u64 == from
        && frame.length as u64 == length
        && part.len() as u64 == length
        && text::stands(memory, from as usize, part)
}

fn same_length(says: &[u8], answer: Result<usize, Refusal>) -> bool {
    same_number(says, answer) && same_value(says, 2, answer.unwrap_or(0) as u64)
}

fn same_room(says: &[u8], answer: Result<usize, Refusal>, room: &[u8]) -> bool {
    same_length(says, answer) && text::same_bytes(text::word(says, 3), room)
}

// ---- calls

fn event_of(line: &[u8]) -> EventNumber {
    EventNumber(text::decimal(text::word(line, 2)) as usize)
}

fn number_of(line: &[u8], k: usize) -> u32 {
    text::decimal_32(text::word(line, k))
}

// The conditions that are lent to a call, where word k has them; else all are present.
fn present_of(line: &[u8], k: usize) -> u32 {
    text::word(line, k)
        .strip_prefix(b"conditions=")
        .map_or(manual::ALL_PRESENT, text::decimal_32)
}

// The length of the room of a call, in word k.
fn room_of(line: &[u8], k: usize) -> usize {
    text::decimal(text::behind(text::word(line, k), b'=')) as usize
}

fn run_report(asked: &Asked, cfg: &[i32], state: &mut LentMut, counts: &mut [u32]) -> bool
    ensures { keeps_loans state.old state.new }
{
    let line = asked.line;
    let mut frame = [0u8; 8192];
    let size = text::read_bytes(text::word(line, 4), &mut frame);
    let given = Report {
        event: event_of(line),
        code: number_of(line, 3),
        frame: &frame[..size],
        present: present_of(line, 5),
    };
    let answer = reporting::report(cfg, state, &given, counts);
    same_number(asked.says, answer) && same_verdict(asked.says, answer.unwrap_or(Verdict::None))
}

fn run_read_status(asked: &Asked, cfg: &[i32], state: &Lent) -> bool {
    let answer = queries::read_status(cfg, state, event_of(asked.line));
    same_number(asked.says, answer) && same_value(asked.says, 2, u64::from(answer.unwrap_or(0)))
}

fn run_read_counter(asked: &Asked, cfg: &[i32], state: &Lent) -> bool {
    let answer = queries::read_counter(cfg, state, event_of(asked.line));
    same_number(asked.says, answer)
        && text::integer(text::word(asked.says, 2)) == i32::from(answer.unwrap_or(0))
}

fn run_read_missing(asked: &Asked, cfg: &[i32], state: &Lent) -> bool {
    let present = number_of(asked.line, 3);
    let answer = queries::read_missing(cfg, state, event_of(asked.line), present);
    let missing = answer.unwrap_or(StillMissing {
        count: 0,
        lowest: 0,
    });
    same_number(asked.says, answer)
        && same_value(asked.says, 2, u64::from(missing.count))
        && same_value(asked.says, 3, u64::from(missing.lowest))
}

fn run_read_table(asked: &Asked, cfg: &[i32], state: &Lent) -> bool {
    let answer = untested::read_table(cfg, state);
    let table = answer.unwrap_or([0; 32]);
    same_number(asked.says, answer)
        && text::same_numbers(text::word(asked.says, 2), &table, text::decimal)
}

fn run_read_paint(asked: &Asked, cfg: &[i32], state: &Lent) -> bool {
    let answer = untested::read_paint(cfg, state, event_of(asked.line));
    same_number(asked.says, answer) && same_paint(asked.says, answer.unwrap_or(Paint::Grey))
}

fn run_list_grey(asked: &Asked, cfg: &[i32], state: &Lent) -> bool {
    let mut list = [0xA5A5u16; 1024];
    let size = text::most(room_of(asked.line, 2), &list);
    let list = &mut list[..size];
    let answer = untested::list_grey(cfg, state, list);
    same_length(asked.says, answer)
        && text::same_numbers(text::word(asked.says, 3), list, text::decimal)
}

// Which frame is read, where word 3 has it; else the first.
fn which_of(line: &[u8]) -> Which {
    if text::word(line, 3).starts_with(b"which=1") {
        Which::Latest
    } else {
        Which::First
    }
}

fn run_read_frame(asked: &Asked, cfg: &[i32], state: &Lent) -> bool {
    let event = event_of(asked.line);
    let answer = queries::read_frame(cfg, state, event, which_of(asked.line));
    let part = queries::frame_part(state.memory, answer);
    let frame = answer.unwrap_or(FramePart {
        start: 0,
        length: 0,
    });
    same_number(asked.says, answer) && same_frame(asked.says, frame, state.memory, part)
}

fn run_save(asked: &Asked, cfg: &[i32], state: &Lent) -> bool {
    let mut room = [0xA5u8; 8192];
    let size = text::most(room_of(asked.line, 2), &room);
    let room = &mut room[..size];
    let answer = image::save(cfg, state, room);
    same_room(asked.says, answer, room)
}

// The calls that only read.
fn run_reading(call: Reading, asked: &Asked, cfg: &[i32], state: &Lent) -> bool {
    match call {
        Reading::ReadStatus => run_read_status(asked, cfg, state),
        Reading::ReadCounter => run_read_counter(asked, cfg, state),
        Reading::ReadMissing => run_read_missing(asked, cfg, state),
        Reading::ReadTable => run_read_table(asked, cfg, state),
        Reading::ReadPaint => run_read_paint(asked, cfg, state),
        Reading::ListGrey => run_list_grey(asked, cfg, state),
        Reading::ReadFrame => run_read_frame(asked, cfg, state),
        Reading::Save => run_save(asked, cfg, state),
    }
}

fn run_diagnose(asked: &Asked, cfg: &[i32], state: &mut LentMut, counts: &mut [u32]) -> bool
    ensures { keeps_loans state.old state.new }
{
    let mut request = [0u8; 8192];
    let length = text::read_bytes(text::word(asked.line, 2), &mut request);
    let mut room = [0xA5u8; 8192];
    let size = text::most(room_of(asked.line, 3), &room);
    let room = &mut room[..size];
    let answer = diagnostics::request(cfg, state, &request[..length], room, counts);
    same_room(asked.says, answer, room)
}

// The call that starts a cycle is lent the debounce numbers and memory to be read only.
fn start(cfg: &[i32], state: &mut LentMut, cycle: u32) -> Result<(), Refusal>
    ensures { keeps_loans state.old state.new }
{
    let debounce = &mut *state.debounce;
    let memory = &mut *state.memory;
    cycles::start(
        cfg,
        state.records,
        debounce,
        memory,
        &mut state.board,
        cycle,
    )
}

// The word that has such a call's frame or image; word 0, which has none, for a call that takes neither.
fn plain_word(call: Plain) -> usize {
    match call {
        Plain::Tick => 3,
        Plain::Restore => 2,
        _ => 0,
    }
}

fn run_plain(
    call: Plain,
    line: &[u8],
    cfg: &[i32],
    state: &mut LentMut,
    counts: &mut [u32],
) -> Result<(), Refusal>
    ensures { keeps_loans state.old state.new }
{
    let k = number_of(line, 2);
    let mut bytes = [0u8; 8192];
    let size = text::read_bytes(text::word(line, plain_word(call)), &mut bytes);
    let bytes = &bytes[..size];
    let given = Tick {
        ms: k,
        frame: bytes,
        present: present_of(line, 4),
    };
    match call {
        Plain::Fresh => fresh_state::fresh(cfg, state, counts),
        Plain::Tick => reporting::tick(cfg, state, &given, counts),
        Plain::Start => start(cfg, state, k),
        Plain::Stop => cycles::stop(cfg, state, k, counts),
        Plain::Clear => clearing::clear(cfg, state, k, counts),
        Plain::Restore => image::restore(cfg, state, bytes, counts),
    }
}

// Runs a call, and says whether it answers as its case has it.
fn run_call(call: Call, asked: &Asked, cfg: &[i32], state: &mut LentMut, counts: &mut [u32]) -> bool
    ensures { keeps_loans state.old state.new }
{
    match call {
        Call::Report => run_report(asked, cfg, state, counts),
        Call::Diagnose => run_diagnose(asked, cfg, state, counts),
        Call::Reads(reading) => run_reading(reading, asked, cfg, &state.as_found()),
        Call::Writes(plain) => {
            let answer = run_plain(plain, asked.line, cfg, state, counts);
            same_number(asked.says, answer)
        }
    }
}

// The call of a line that begins with >.
fn call_of(line: &[u8]) -> Option<Call> {
    let calls: [(&[u8], Call); 16] = [
        (b"report ", Call::Report),
        (b"diagnose ", Call::Diagnose),
        (b"read_status ", Call::Reads(Reading::ReadStatus)),
        (b"read_counter ", Call::Reads(Reading::ReadCounter)),
        (b"missing ", Call::Reads(Reading::ReadMissing)),
        (b"table", Call::Reads(Reading::ReadTable)),
        (b"paint ", Call::Reads(Reading::ReadPaint)),
        (b"grey_list ", Call::Reads(Reading::ListGrey)),
        (b"read_frame ", Call::Reads(Reading::ReadFrame)),
        (b"save ", Call::Reads(Reading::Save)),
        (b"fresh", Call::Writes(Plain::Fresh)),
        (b"tick ", Call::Writes(Plain::Tick)),
        (b"start ", Call::Writes(Plain::Start)),
        (b"stop ", Call::Writes(Plain::Stop)),
        (b"clear ", Call::Writes(Plain::Clear)),
        (b"restore ", Call::Writes(Plain::Restore)),
    ];
    for (name, call) in calls {
        if text::stands(line, 2, name) {
            return Some(call);
        }
    }
    None
}

// ---- lines

fn nothing_lent() -> Loan {
    Loan {
        config: 0,
        records: 0,
        debounce: 0,
        memory: 0,
        counts: 0,
        board: fresh_state::stopped_board(false),
    }
}

fn begin() -> Story {
    Story {
        loan: nothing_lent(),
        other: None,
        case: None,
        tally: Tally::new(),
        differing: None,
        line: 0,
        ended: false,
    }
}

// The fresh state that opens a story is no call: it counts only where it differs.
fn count(now: &mut Story, case: Case, agrees: bool) {
    if case.is_call {
        now.tally.ran = text::one_more(now.tally.ran);
    }
    if !agrees {
        now.tally.differed = text::one_more(now.tally.differed);
        now.differing = Some(case.line);
    }
}

// Compares the blocks with the awaited state, where that is still to be done, and counts.
fn close(now: &mut Story, want: &[u8], blocks: &Blocks) {
    if let Some(case) = now.case {
        let agrees = case.agrees && as_awaited(&now.loan, want, blocks);
        count(now, case, agrees);
        now.case = None;
    }
}

// Number k of a configuration, which is never above the most.
fn length_at(line: &[u8], k: usize, most: usize) -> usize
    ensures { result ≤ most }
{
    most.min(text::decimal(text::word(line, k)) as usize)
}

// Runs the call of a line on the blocks, as far as they are lent, and says whether it answers as its case has it.
fn run_on(loan: &mut Loan, asked: &Asked, cfg: &[i32], blocks: &mut Blocks) -> bool {
    let Some(call) = call_of(asked.line) else {
        return false;
    };
    let Blocks {
        records,
        debounce,
        memory,
        counts,
    } = blocks;
    let r = text::most(loan.records, records);
    let d = text::most(loan.debounce, debounce);
    let m = text::most(loan.memory, memory);
    let k = text::most(loan.counts, counts);
    let mut state = LentMut {
        records: &mut records[..r],
        debounce: &mut debounce[..d],
        memory: &mut memory[..m],
        board: loan.board,
    };
    let agrees = run_call(call, asked, cfg, &mut state, &mut counts[..k]);
    loan.board = state.board;
    agrees
}

// The lengths that the line that begins with config asks for, with so many numbers in it.
fn lengths(line: &[u8], config: usize) -> Loan {
    let events = length_at(line, 1, manual::MOST_EVENTS);
    let places = length_at(line, 2, manual::MOST_PLACES);
    let frame = length_at(line, 3, manual::MOST_FRAME);
    let whole = memory::memory_length(places, 2 * frame);
    Loan {
        config,
        records: manual::RECORD_WIDTH * events,
        debounce: events,
        memory: whole,
        counts: manual::COUNTS,
        board: fresh_state::stopped_board(false),
    }
}

// The story goes on after a case.
fn after_case(now: &mut Story, is_call: bool, agrees: bool) {
    now.other = None;
    now.case = Some(Case {
        is_call,
        agrees,
        line: now.line,
    });
}

// The line that begins with config: the fresh state in blocks of the lengths that it asks for.
fn open_story(now: &mut Story, line: &[u8], cfg: &mut [i32], blocks: &mut Blocks) {
    let n = text::read_numbers(text::rest(line, 7), b' ', cfg, text::integer);
    now.loan = lengths(line, n);
    let fresh = Asked {
        line: b"> fresh",
        says: b"< 0",
    };
    let agrees = run_on(&mut now.loan, &fresh, &cfg[..n], blocks);
    after_case(now, false, agrees);
}

// The line that begins with %.
fn lend_state(loan: &mut Loan, line: &[u8], blocks: &mut Blocks) {
    let debounce = text::word(line, 2);
    let counts = text::word(line, 6);
    loan.records = text::read_bytes(text::word(line, 1), &mut blocks.records);
    loan.debounce = text::read_numbers(debounce, b',', &mut blocks.debounce, text::integer);
    loan.memory = text::read_bytes(text::word(line, 3), &mut blocks.memory);
    loan.counts = text::read_numbers(counts, b',', &mut blocks.counts, text::decimal_32);
    loan.board = read_board(line);
}

// The line that begins with ~.
fn lend_config(now: &mut Story, line: &[u8], other: &mut [i32]) {
    let n = text::read_numbers(text::rest(line, 2), b' ', other, text::integer);
    now.other = Some(n);
}

// The configuration of the next call: the story's, or the one that it is lent.
fn lent_config<'a>(now: &Story, configs: &'a Configs) -> &'a [i32] {
    match now.other {
        Some(n) => front(&configs.other, n),
        None => front(&configs.own, now.loan.config),
    }
}

// The line that begins with >, and the one behind it.
fn run_case(now: &mut Story, asked: &Asked, configs: &Configs, blocks: &mut Blocks) {
    let cfg = lent_config(now, configs);
    let agrees = run_on(&mut now.loan, asked, cfg, blocks);
    after_case(now, true, agrees);
    now.line = text::one_more(now.line);
}

// Any line but one that begins with =.
fn take_other(now: &mut Story, asked: &Asked, configs: &mut Configs, blocks: &mut Blocks) {
    let line = asked.line;
    match text::byte_at(line, 0) {
        b'c' => open_story(now, line, &mut configs.own, blocks),
        b'~' => lend_config(now, line, &mut configs.other),
        b'%' => lend_state(&mut now.loan, line, blocks),
        b'>' => run_case(now, asked, configs, blocks),
        _ => {}
    }
}

// One line more, none at the end of the file. What is open before it is compared now, but where it has the state that
// is awaited.
fn settle(now: &mut Story, line: &[u8], want: &mut [u8], blocks: &Blocks) {
    now.line = text::one_more(now.line);
    now.ended = line.is_empty();
    match text::byte_at(line, 0) {
        b'=' => copy(line, want),
        b'%' => {
            close(now, want, blocks);
            copy(line, want);
        }
        _ => close(now, want, blocks),
    }
}

// The line behind a call; of any other line, nothing.
fn read_answer(fd: i32, line: &[u8], says: &mut [u8]) -> usize {
    if text::byte_at(line, 0) == b'>' {
        text::read_line(fd, says)
    } else {
        0
    }
}

fn next_line(
    now: &mut Story,
    fd: i32,
    texts: &mut Texts,
    configs: &mut Configs,
    blocks: &mut Blocks,
) {
    let Texts { line, says, want } = texts;
    let n = text::read_line(fd, line);
    let line = front(line, n);
    let k = read_answer(fd, line, says);
    let says = front(says, k);
    settle(now, line, want, blocks);
    take_other(now, &Asked { line, says }, configs, blocks);
}

// Says of a case that is found to differ where it stands, once.
fn tell(name: &[u8], now: &mut Story) {
    if let Some(line) = now.differing {
        text::say_differs(name, line);
    }
    now.differing = None;
}

fn run_lines(name: &[u8], fd: i32) -> Tally {
    let mut texts = Texts {
        line: [0; 32768],
        says: [0; 32768],
        want: [0; 32768],
    };
    let mut configs = Configs {
        own: [0; 7232],
        other: [0; 7232],
    };
    let mut blocks = Blocks {
        records: [0; 2112],
        debounce: [0; 528],
        memory: [0; 4352],
        counts: [0; 16],
    };
    let mut now = begin();
    for _ in 0..1_000_000_000usize {
        next_line(&mut now, fd, &mut texts, &mut configs, &mut blocks);
        tell(name, &mut now);
        if now.ended {
            return now.tally;
        }
    }
    now.tally
}

fn run_file(rt: &impl Files<File = File>, name: &[u8]) {
    let Some(file) = files::open_read(rt, name) else {
        io::write_all(1, name);
        io::write_all(1, b": cannot be read\n");
        return;
    };
    let tally = run_lines(name, file.as_raw_fd());
    drop(file);
    tally.say(name);
}

fn main(rt: HostRuntime) {
    run_file(&rt, b"calls.txt");
    run_file(&rt, b"counts.txt");
    run_file(&rt, b"document.txt");
    run_file(&rt, b"states.txt");
    run_file(&rt, b"stories.txt");
    run_file(&rt, b"untested.txt");
}
