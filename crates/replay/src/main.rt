// Document 01, "Replay program": reads a story of calls from standard input, makes them on the manager, and writes a
// line a call.
#![tactic(auto)]

ghost use Rattle.std.specs.Prelude.{◌≡◌, length};
ghost use Rattle.replay_step.specs.Turn.{Playable, Buffers};

use manual::LentMut;
use replay_step::{Begun, Stepped};
use transcript::Cursor;

fn say(line: &[u8]) {
    io::write_all(1, line);
}

fn bad_input() {
    say(b"bad input\n");
}

// How far the input is played: the cursor behind the last call, and whether a further call may follow.
#[derive(Clone, Copy)]
struct Played {
    next: Cursor,
    more: bool,
}

fn ended(next: Cursor) -> Played {
    Played { next, more: false }
}

// One turn, and its line.
fn turn(cfg: &[i32], state: &mut LentMut, played: Played, text: &[u8], buffer: &mut [u8]) -> Played
    requires { Playable cfg.now state.old.records.now buffer.old }
    ensures { length state.new.records.now ≡ length state.old.records.now }
{
    let from = played.next;
    match replay_step::step(cfg, state, text, from, buffer) {
        Stepped::Line(length, _, next) => {
            say(&buffer[..length]);
            Played { next, more: true }
        }
        Stepped::End => ended(from),
        Stepped::BadInput => {
            bad_input();
            ended(from)
        }
    }
}

// The calls of the text from the cursor on. Each takes at least one byte of it.
fn turns(cfg: &[i32], state: &mut LentMut, text: &[u8], from: Cursor, buffer: &mut [u8])
    requires { Playable cfg.now state.old.records.now buffer.old }
{
    let mut played = Played {
        next: from,
        more: true,
    };
    for _turn in 0..text.len() {
        if !played.more {
            return;
        }
        played = turn(cfg, state, played, text, buffer);
    }
}

// A fresh state in blocks of the exact lengths, then the calls.
fn story(
    cfg: &[i32],
    records: &mut [u8],
    debounce: &mut [i32],
    memory: &mut [u8],
    text: &[u8],
    from: Cursor,
)
    requires { Buffers cfg.now records.old debounce.old memory.old }
{
    let mut buffer = [0; 2052];
    let n = config::events(cfg);
    let used = memory::memory_length(config::places(cfg), memory::entry_frames(cfg));
    let mut state = LentMut {
        records: &mut records[..4 * n],
        debounce: &mut debounce[..n],
        memory: &mut memory[..used],
        board: fresh_state::stopped_board(false),
    };
    let mut counts = [0; manual::COUNTS];
    let _ = fresh_state::fresh(cfg, &mut state, &mut counts);
    turns(cfg, &mut state, text, from, &mut buffer);
}

fn main() {
    let mut input = [0; 32768];
    let mut beyond = [0; 1];
    let mut cfg = [0; manual::MOST_NUMBERS];
    let mut records = [0; manual::MOST_RECORDS];
    let mut debounce = [0; manual::MOST_EVENTS];
    let mut memory = [0; manual::MOST_MEMORY];
    let length = io::read_full(0, &mut input);
    let longer = 0 < io::read_full(0, &mut beyond);
    let text = &input[..length];
    match replay_step::begin(text, longer, &mut cfg) {
        Begun::Ready(count, next) => story(
            &cfg[..count],
            &mut records,
            &mut debounce,
            &mut memory,
            text,
            next,
        ),
        Begun::Refused => say(b"2\n"),
        Begun::Unreadable => bad_input(),
    }
}
