// Document 01, "Replay program": what its input asks for, and one call of it made, with its line.
#![tactic(auto)]

ghost use Rattle.std.specs.Prelude.{◌≡◌, ◌≤◌, ◌<◌, pos, length, take};
ghost use Rattle.manual.specs.Words.{between, nat_of};
ghost use Rattle.manual.specs.Configuration.{most_numbers};
ghost use Rattle.manual.specs.Lent.{as_lent, keeps_loans};
ghost use Rattle.manual.specs.Answers.{Beside, lent_counts};
ghost use Rattle.manual.specs.Conditions.{all_present};
ghost use Rattle.manual.specs.Calls.{report, start_cycle, tick};
ghost use Rattle.manual.specs.Sequences.{outcome};
ghost use Rattle.transcript.specs.Text.{next_read};
ghost use Rattle.replay_step.specs.Asked.{argument_of, argument_at, report_asked, call_asked, call_with, asked_of, asked_at};
ghost use Rattle.replay_step.specs.Beginning.{with_next, numbers_read, judged_numbers, of_numbers, with_count};
ghost use Rattle.replay_step.specs.Beginning.{beginning, leaving, numbers_left, beginning_left};
ghost use Rattle.replay_step.specs.declared.Asked.TheVariants.{Makes};
ghost use Rattle.replay_step.specs.Turn.{call_is, made, made_by_call, turned, turn_by, turn, Playable};

use manual::{EventNumber, LentMut};
use reporting::{Report, Tick};
use transcript::{Cursor, Word};

// ---- the calls that the input asks for

// One of the five calls, with its arguments.
#[derive(Clone, Copy)]
pub enum Call {
    Report(EventNumber, u32),
    Start(u32),
    Stop(u32),
    Tick(u32),
    Clear(u32),
}

// What the input asks for next: a call, with the cursor behind it; nothing more; or what cannot be read.
#[derive(Clone, Copy)]
pub enum Asked {
    Makes(Call, Cursor),
    Nothing,
    Unreadable,
}

// 0 for a negative number, which no argument is.
fn count_of(number: i32) -> u32
    ensures { result ≡ nat_of number }
{
    if number < 0 { 0 } else { number as u32 }
}

// "unreadable, incomplete, or an argument with a minus"
#[tactic(auto, using(config::proofs::SignedInCode::back))]
fn argument_of(word: Word) -> Option<(u32, Cursor)>
    ensures { result ≡ argument_of word }
{
    match word {
        Word::Number(read) => {
            if read.minus {
                return None;
            }
            let next = read.next;
            Some((count_of(read.value), next))
        }
        Word::Unreadable => None,
        Word::End => None,
    }
}

#[tactic(auto, unfolding(crate::specs::Asked::argument_at))]
fn read_argument(text: &[u8], from: Cursor) -> Option<(u32, Cursor)>
    ensures { result ≡ argument_at from.at text.now }
{
    argument_of(transcript::next_number(text, from))
}

// "`1 event code`", of which the event is read
#[tactic(auto, unfolding(crate::specs::Asked::report_asked))]
fn report_asked(text: &[u8], event: u32, from: Cursor) -> Option<(Call, Cursor)>
    ensures { result ≡ report_asked event from.at text.now }
{
    let (code, next) = read_argument(text, from)?;
    Some((Call::Report(EventNumber(event as usize), code), next))
}

// "`1 event code`, `2 cycle` (start), `3 cycle` (stop), `4 ms`, `5 code` (clear)", of which the first argument is read
#[tactic(auto, unfolding(crate::specs::Asked::call_with))]
fn call_with(text: &[u8], number: u32, first: u32, from: Cursor) -> Option<(Call, Cursor)>
    ensures { result ≡ call_with number first from text.now }
{
    match number {
        1 => report_asked(text, first, from),
        2 => Some((Call::Start(first), from)),
        3 => Some((Call::Stop(first), from)),
        4 => Some((Call::Tick(first), from)),
        5 => Some((Call::Clear(first), from)),
        _ => None,
    }
}

#[tactic(auto, unfolding(crate::specs::Asked::call_asked))]
fn call_asked(text: &[u8], number: u32, from: Cursor) -> Option<(Call, Cursor)>
    ensures { result ≡ call_asked number from.at text.now }
{
    let (first, next) = read_argument(text, from)?;
    call_with(text, number, first, next)
}

fn asked_of(called: Option<(Call, Cursor)>) -> Asked
    ensures { result ≡ asked_of called }
{
    match called {
        Some((call, next)) => Asked::Makes(call, next),
        None => Asked::Unreadable,
    }
}

// The next call of the input from the cursor on.
#[tactic(auto, using(config::proofs::SignedInCode::back), unfolding(crate::specs::Asked::asked_at))]
pub fn next_call(text: &[u8], from: Cursor) -> Asked
    ensures { result ≡ asked_at from.at text.now }
{
    match transcript::next_number(text, from) {
        Word::Number(read) => {
            if read.minus {
                return Asked::Unreadable;
            }
            let next = read.next;
            asked_of(call_asked(text, count_of(read.value), next))
        }
        Word::Unreadable => Asked::Unreadable,
        Word::End => Asked::Nothing,
    }
}

// ---- the configuration

// Reads the next number into its place. Answers the cursor behind it, or none where there is no number to be read.
#[tactic(auto, using(config::proofs::SignedInCode::back, writing::proofs::PartlyWritten::laid_next, writing::proofs::PartlyWritten::laid_front))]
fn read_into(text: &[u8], from: Cursor, cfg: &mut [i32], place: usize) -> Option<Cursor>
    requires { place < length cfg.old }
    ensures { leaving result cfg.new
        ≡ numbers_left (with_next (take place cfg.old) (next_read from.at text.now))
        cfg.old }
{
    match transcript::next_number(text, from) {
        Word::Number(read) => {
            let value = read.value;
            cfg[place] = value;
            let next = read.next;
            Some(next)
        }
        Word::Unreadable => None,
        Word::End => None,
    }
}

// Reads so many numbers into the front of cfg. Answers the cursor behind them, or none where one cannot be read.
fn read_numbers(text: &[u8], from: Cursor, cfg: &mut [i32], count: usize) -> Option<Cursor>
    requires { count ≤ length cfg.old }
    ensures { leaving result cfg.new
        ≡ numbers_left (numbers_read count from.at text.now) cfg.old }
{
    let mut next = from;
    for place in 0..count {
        next = read_into(text, next, cfg, place)?;
    }
    Some(next)
}

// How the input begins: with an accepted configuration of so many numbers, and the cursor behind it; with one that is
// refused; or with what cannot be read.
#[derive(Clone, Copy)]
pub enum Begun {
    Ready(usize, Cursor),
    Refused,
    Unreadable,
}

// "6,659", with W5 "7,171": the numbers of the longest configuration.
const MOST_NUMBERS: i32 = manual::MOST_NUMBERS as i32;

// The numbers in front of cfg as a configuration: "Refused configuration: one line `2`."
#[tactic(auto, using(crate::proofs::BeginningLaws::length_of_front, writing::proofs::PartlyWritten::laid_front), unfolding(crate::specs::Beginning::judged_numbers))]
fn judged(cfg: &[i32], count: usize, next: Cursor) -> Begun
    requires { count ≤ length cfg.now }
    ensures { leaving result cfg.now
        ≡ beginning_left (judged_numbers (take count cfg.now) next.at) cfg.now }
{
    if config::config_ok(&cfg[..count]) {
        Begun::Ready(count, next)
    } else {
        Begun::Refused
    }
}

fn read_configuration(text: &[u8], from: Cursor, cfg: &mut [i32], count: usize) -> Begun
    requires { count ≤ length cfg.old }
    ensures { leaving result cfg.new
        ≡ beginning_left (of_numbers (numbers_read count from.at text.now)) cfg.old }
{
    match read_numbers(text, from, cfg, count) {
        Some(next) => judged(cfg, count, next),
        None => Begun::Unreadable,
    }
}

// "a count outside 0 to 6,659", with W5 "up to 7,171"
#[tactic(auto, unfolding(manual::specs::Words::between))]
fn count_allowed(count: i32) -> bool
    ensures { result ≡ between (pos 0) (pos most_numbers) count }
{
    (0 <= count) & (count <= MOST_NUMBERS)
}

// The configuration of so many numbers, if so many are allowed.
fn counted(text: &[u8], count: i32, from: Cursor, cfg: &mut [i32]) -> Begun
    requires { most_numbers ≤ length cfg.old }
    ensures { leaving result cfg.new
        ≡ beginning_left (with_count count from.at text.now) cfg.old }
{
    if !count_allowed(count) {
        return Begun::Unreadable;
    }
    read_configuration(text, from, cfg, count_of(count) as usize)
}

// "Longer input, or a count outside 0 to 6,659: only the line `bad input`.", with W5 7,171.
// The numbers that were read are left in front of cfg, which has room for the most, and the rest of it as it was.
#[tactic(auto, using(config::proofs::SignedInCode::back), unfolding(crate::specs::Beginning::beginning, writing::specs::Writing::laid))]
pub fn begin(text: &[u8], longer: bool, cfg: &mut [i32]) -> Begun
    requires { most_numbers ≤ length cfg.old }
    ensures { leaving result cfg.new
        ≡ beginning_left (beginning longer text.now) cfg.old }
{
    if longer {
        return Begun::Unreadable;
    }
    match transcript::next_number(text, Cursor { at: 0 }) {
        Word::Number(count) => {
            let next = count.next;
            counted(text, count.value, next, cfg)
        }
        Word::Unreadable => Begun::Unreadable,
        Word::End => Begun::Unreadable,
    }
}

// ---- a turn

// What a turn answers: the length of the line in front of the buffer, the call's answer, and the cursor behind it; that
// the input ends; or that it is bad.
#[derive(Clone, Copy)]
pub enum Stepped {
    Line(usize, u8, Cursor),
    End,
    BadInput,
}

// A report, while all conditions are present. Answers its number, as each of these.
fn make_report(
    cfg: &[i32],
    state: &mut LentMut,
    event: EventNumber,
    code: u32,
    frame: &[u8],
    counts: &mut [u32],
) -> u8
    ensures loans { keeps_loans state.old state.new }
    ensures promise { made result (as_lent state.new)
        ≡ made_by_call (report cfg.now event.0 code frame.now all_present
        (lent_counts counts.old) (as_lent state.old)) }
{
    let given = Report {
        event,
        code,
        frame,
        present: manual::ALL_PRESENT,
    };
    answers::number(reporting::report(cfg, state, &given, counts))
}

// A start, which takes its blocks one by one.
#[tactic(auto, using(crate::proofs::TurnLaws::start_made))]
fn make_start(cfg: &[i32], state: &mut LentMut, cycle: u32) -> u8
    ensures loans { keeps_loans state.old state.new }
    ensures promise { (b : Beside) → made result (as_lent state.new)
        ≡ made_by_call (start_cycle cfg.now cycle b (as_lent state.old)) }
{
    let debounce = &mut *state.debounce;
    let memory = &mut *state.memory;
    answers::number(cycles::start(
        cfg,
        state.records,
        debounce,
        memory,
        &mut state.board,
        cycle,
    ))
}

// A tick, while all conditions are present.
fn make_tick(cfg: &[i32], state: &mut LentMut, ms: u32, frame: &[u8], counts: &mut [u32]) -> u8
    ensures loans { keeps_loans state.old state.new }
    ensures promise { made result (as_lent state.new)
        ≡ made_by_call (tick cfg.now ms frame.now all_present (lent_counts counts.old)
        (as_lent state.old)) }
{
    let given = Tick {
        ms,
        frame,
        present: manual::ALL_PRESENT,
    };
    answers::number(reporting::tick(cfg, state, &given, counts))
}

// The call on the manager, with this frame and these counts. Answers its number.
fn make(cfg: &[i32], state: &mut LentMut, call: Call, frame: &[u8], counts: &mut [u32]) -> u8
    ensures loans { keeps_loans state.old state.new }
    ensures promise { made result (as_lent state.new)
        ≡ made_by_call (outcome cfg.now (call_is frame.now call) (lent_counts counts.old)
        (as_lent state.old)) }
{
    match call {
        Call::Report(event, code) => make_report(cfg, state, event, code, frame, counts),
        Call::Start(cycle) => make_start(cfg, state, cycle),
        Call::Stop(cycle) => answers::number(cycles::stop(cfg, state, cycle, counts)),
        Call::Tick(ms) => make_tick(cfg, state, ms, frame, counts),
        Call::Clear(code) => answers::number(clearing::clear(cfg, state, code, counts)),
    }
}

// Makes the call with a frame of zeros and counts of 0, and fills its line.
fn play(cfg: &[i32], state: &mut LentMut, call: Call, next: Cursor, buffer: &mut [u8]) -> Stepped
    requires { Playable cfg.now state.old.records.now buffer.old }
    ensures loans { keeps_loans state.old state.new }
    ensures promise { turned result buffer.new (as_lent state.new)
        ≡ turn_by cfg.now buffer.old (as_lent state.old) (Makes call next) }
    ensures as_long { length state.new.records.now ≡ length state.old.records.now }
{
    let zeros = [0; manual::MOST_FRAME];
    let frame = &zeros[..config::frame_bytes(cfg)];
    let mut counts = [0; manual::COUNTS];
    let answer = make(cfg, state, call, frame, &mut counts);
    let records = &mut *state.records;
    let length = transcript::fill_line(buffer, answer, records, config::events(cfg));
    Stepped::Line(length, answer, next)
}

// Reads the next call of the text from the cursor on, makes it on the manager, and fills its line. Where the input
// ends, or is bad, nothing is done.
#[tactic(auto, unfolding(crate::specs::Turn::turn))]
pub fn step(
    cfg: &[i32],
    state: &mut LentMut,
    text: &[u8],
    from: Cursor,
    buffer: &mut [u8],
) -> Stepped
    requires { Playable cfg.now state.old.records.now buffer.old }
    ensures loans { keeps_loans state.old state.new }
    ensures promise { turned result buffer.new (as_lent state.new)
        ≡ turn cfg.now from.at text.now buffer.old (as_lent state.old) }
    ensures as_long { length state.new.records.now ≡ length state.old.records.now }
{
    match next_call(text, from) {
        Asked::Makes(call, next) => play(cfg, state, call, next, buffer),
        Asked::Nothing => Stepped::End,
        Asked::Unreadable => Stepped::BadInput,
    }
}
