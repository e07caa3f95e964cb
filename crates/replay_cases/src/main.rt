// Plays every case of data/ through the library step of the replay program, compares what it would print with what is
// expected, and prints the file and the first line of each that differs, and how many cases ran and how many differed.
#![tactic(auto)]

ghost use Rattle.std.specs.Prelude.{◌≡◌, length};
ghost use Rattle.replay_step.specs.Turn.{Playable, Buffers};

use manual::LentMut;
use replay_step::{Begun, Stepped};
use std::fs::File;
use std::os::fd::AsRawFd;
use std::rt::Files;
use text::Tally;
use transcript::Cursor;

// ---- comparing

// How much of the expected output was printed so far, whether all of it was as expected, and the first line that is not
// so far.
#[derive(Clone, Copy)]
struct Printed {
    to: usize,
    agrees: bool,
    line: u32,
}

// Whether the expected output goes on with this line.
fn goes_on_with(expected: &[u8], from: usize, line: &[u8]) -> bool {
    match expected.get(from..) {
        Some(rest) => rest.starts_with(line),
        None => false,
    }
}

fn print(printed: Printed, expected: &[u8], line: &[u8]) -> Printed {
    let agrees = printed.agrees & goes_on_with(expected, printed.to, line);
    Printed {
        to: printed.to.saturating_add(line.len()),
        agrees,
        line: printed.line.saturating_add(agrees as u32),
    }
}

fn nothing() -> Printed {
    Printed {
        to: 0,
        agrees: true,
        line: 1,
    }
}

// ---- playing

// How far the input is played: the cursor behind the last call, whether a further call may follow, and what was
// printed.
#[derive(Clone, Copy)]
struct Played {
    next: Cursor,
    more: bool,
    printed: Printed,
}

// One turn, and its line.
fn turn(
    cfg: &[i32],
    state: &mut LentMut,
    played: Played,
    text: &[u8],
    expected: &[u8],
    buffer: &mut [u8],
) -> Played
    requires { Playable cfg.now state.old.records.now buffer.old }
    ensures { length state.new.records.now ≡ length state.old.records.now }
{
    let from = played.next;
    let printed = played.printed;
    match replay_step::step(cfg, state, text, from, buffer) {
        Stepped::Line(length, _, next) => Played {
            next,
            more: true,
            printed: print(printed, expected, &buffer[..length]),
        },
        Stepped::End => Played {
            next: from,
            more: false,
            printed,
        },
        Stepped::BadInput => Played {
            next: from,
            more: false,
            printed: print(printed, expected, b"bad input\n"),
        },
    }
}

// The calls of the text from the cursor on. Each takes at least one byte of it.
fn turns(
    cfg: &[i32],
    state: &mut LentMut,
    text: &[u8],
    from: Cursor,
    expected: &[u8],
    buffer: &mut [u8],
) -> Printed
    requires { Playable cfg.now state.old.records.now buffer.old }
{
    let mut played = Played {
        next: from,
        more: true,
        printed: nothing(),
    };
    for _turn in 0..text.len() {
        if !played.more {
            return played.printed;
        }
        played = turn(cfg, state, played, text, expected, buffer);
    }
    played.printed
}

// A fresh state in blocks of the exact lengths, then the calls.
fn story(
    cfg: &[i32],
    records: &mut [u8],
    debounce: &mut [i32],
    memory: &mut [u8],
    text: &[u8],
    from: Cursor,
    expected: &[u8],
) -> Printed
    requires { Buffers cfg.now records.old debounce.old memory.old }
{
    let mut buffer = [0; 2052];
    let n = config::events(cfg);
    let used = memory::memory_length(config::places(cfg), memory::entry_frames(cfg));
    let mut state = LentMut {
        records: &mut records[..4 * n],
        debounce: &mut debounce[..n],
        memory: &mut memory[..used],
        board: fresh_state::stopped_board(false),
    };
    let mut counts = [0; manual::COUNTS];
    let _ = fresh_state::fresh(cfg, &mut state, &mut counts);
    turns(cfg, &mut state, text, from, expected, &mut buffer)
}

// What the replay program would print of the text, held to what is expected.
fn would_print(text: &[u8], longer: bool, expected: &[u8]) -> Printed {
    let mut cfg = [0; manual::MOST_NUMBERS];
    let mut records = [0; manual::MOST_RECORDS];
    let mut debounce = [0; manual::MOST_EVENTS];
    let mut memory = [0; manual::MOST_MEMORY];
    match replay_step::begin(text, longer, &mut cfg) {
        Begun::Ready(count, next) => story(
            &cfg[..count],
            &mut records,
            &mut debounce,
            &mut memory,
            text,
            next,
            expected,
        ),
        Begun::Refused => print(nothing(), expected, b"2\n"),
        Begun::Unreadable => print(nothing(), expected, b"bad input\n"),
    }
}

// ---- the cases

// The bytes from one place to another; none where they do not lie within the text.
fn part<'a>(text: &'a [u8], from: usize, to: usize) -> &'a [u8] {
    text.get(from..to).unwrap_or(&[])
}

// The place of the first space or newline from a place on.
fn word_end(text: &[u8], from: usize) -> usize {
    from + text::rest(text, from)
        .iter()
        .take_while(|byte| b' ' < **byte)
        .count()
}

// Reads the front of a file, and answers how many bytes; 0 where it cannot be read.
fn read_file(rt: &impl Files<File = File>, path: &[u8], buffer: &mut [u8]) -> usize {
    let Some(file) = files::open_read(rt, path) else {
        return 0;
    };
    let length = io::read_full(file.as_raw_fd(), buffer);
    drop(file);
    length
}

// The first line at which the case of these two files does not print what is expected, or more or less; 0 where there
// is none.
fn differing_line(rt: &impl Files<File = File>, input: &[u8], output: &[u8]) -> u32 {
    let mut text = [0; 32769];
    let mut expected = [0; 131072];
    let length = read_file(rt, input, &mut text);
    let size = read_file(rt, output, &mut expected);
    let longer = 32768 < length;
    let printed = would_print(part(&text, 0, length), longer, part(&expected, 0, size));
    if printed.agrees & (printed.to == size) {
        0
    } else {
        printed.line
    }
}

// Runs the case whose two files are named from a place on, and answers the place behind them. A case that differs is
// told by the file of its expected output and the line there.
fn run_case(rt: &impl Files<File = File>, names: &[u8], at: usize, tally: &mut Tally) -> usize {
    let input = word_end(names, at);
    let second = input.saturating_add(1);
    let output = word_end(names, second);
    let name = part(names, second, output);
    let line = differing_line(rt, part(names, at, input), name);
    if 0 < line {
        text::say_differs(name, line);
    }
    tally.count(line == 0);
    output.saturating_add(1)
}

fn run_all(rt: &impl Files<File = File>, names: &[u8]) -> Tally {
    let mut tally = Tally::new();
    let mut at = 0;
    for _case in 0..names.len() {
        if names.len() <= at {
            return tally;
        }
        at = run_case(rt, names, at, &mut tally);
    }
    tally
}

fn main(rt: HostRuntime) {
    let mut names = [0; 16384];
    let length = read_file(&rt, b"names", &mut names);
    let tally = run_all(&rt, part(&names, 0, length));
    tally.say(b"replay cases");
}
