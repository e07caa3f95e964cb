// Runs the case files through start, flow, next and take, and prints the file and the line of each step that differs,
// and for each file how many steps ran and how many differed.
//
// A line of a case file begins with
//   receiver  a new idle receiver, its room filled with A5h
//   sender    a new idle sender; the message lent to next is that of the last start that was accepted
//   >         a step, and in the next line, which begins with <, what it answers, and a receiver's room
//   #         a remark
#![tactic(auto)]

use std::fs::File;
use std::os::fd::AsRawFd;
use std::rt::Files;
use text::Tally;
use transport::{CanFrame, FlowAnswer, FlowControl, Receiver, Refused, Sender, TakeAnswer};

type Line = [u8; 16384];

// A story so far: the receiver, its flow control and its room, of which so much is lent; the sender and the message of
// the last start that was accepted, of this length.
#[derive(Drop)]
struct Story {
    receiver: Receiver,
    flow: FlowControl,
    space: usize,
    room: [u8; 4224],
    sender: Sender,
    size: usize,
    message: [u8; 4224],
}

// A line that was read: a step, and whether it answers what is expected; or none.
#[derive(Clone, Copy)]
enum Read {
    Step(bool),
    Other,
}

fn begin() -> Story {
    Story {
        receiver: Receiver::Idle,
        flow: FlowControl {
            block: 0,
            separation: 0,
        },
        space: 0,
        room: [0; 4224],
        sender: Sender::Idle,
        size: 0,
        message: [0; 4224],
    }
}

// ---- a new receiver, a new sender

fn low_byte(n: u64) -> u8 {
    (n % 256) as u8
}

// The number behind the = of word k.
fn named(line: &[u8], k: usize) -> u64 {
    text::decimal(text::behind(text::word(line, k), b'='))
}

fn new_receiver(story: &mut Story, line: &[u8]) {
    story.receiver = Receiver::Idle;
    story.flow = FlowControl {
        block: low_byte(named(line, 2)),
        separation: low_byte(named(line, 3)),
    };
    story.space = named(line, 1) as usize;
    story.room = [0xA5; 4224];
}

fn new_sender(story: &mut Story) {
    story.sender = Sender::Idle;
    story.size = 0;
}

// ---- frames

fn read_frame(word: &[u8]) -> CanFrame {
    let mut bytes = [0u8; 8];
    text::read_bytes(word, &mut bytes);
    CanFrame { bytes }
}

fn same_frame(word: &[u8], frame: CanFrame) -> bool {
    text::same_bytes(word, &frame.bytes)
}

// Whether 0 and this frame are expected.
fn says_frame(says: &[u8], frame: CanFrame) -> bool {
    text::stands(says, 0, b"< 0 ") & same_frame(text::word(says, 2), frame)
}

// Whether 0 and these words are expected, and behind them this number.
fn says_number(says: &[u8], words: &[u8], number: u64) -> bool {
    text::stands(says, 0, words) & (text::decimal(text::word(says, 3)) == number)
}

fn says_13(says: &[u8]) -> bool {
    text::stands(says, 0, b"< 13")
}

// ---- the receiver

// Whether this answer is expected.
fn same_taken(says: &[u8], answer: Result<TakeAnswer, Refused>) -> bool {
    match answer {
        Ok(TakeAnswer::Going) => text::stands(says, 0, b"< 0 going"),
        Ok(TakeAnswer::Control(frame)) => {
            text::stands(says, 0, b"< 0 control") & same_frame(text::word(says, 3), frame)
        }
        Ok(TakeAnswer::Complete(size)) => says_number(says, b"< 0 complete ", size as u64),
        Err(_) => says_13(says),
    }
}

// The word in which the room then stands.
fn room_word(answer: Result<TakeAnswer, Refused>) -> usize {
    match answer {
        Ok(TakeAnswer::Going) => 3,
        Ok(TakeAnswer::Control(_)) => 4,
        Ok(TakeAnswer::Complete(_)) => 4,
        Err(_) => 2,
    }
}

fn run_take(story: &mut Story, line: &[u8], says: &[u8]) -> bool {
    let frame = read_frame(text::word(line, 2));
    let space = text::most(story.space, &story.room);
    let flow = story.flow;
    let mut receiver = story.receiver;
    let answer = receiving::take(&mut receiver, &mut story.room[..space], flow, frame);
    story.receiver = receiver;
    let word = text::word(says, room_word(answer));
    same_taken(says, answer) & text::same_bytes(word, &story.room[..space])
}

// ---- the sender

// The message, where its start is accepted, is kept for the frames to come.
fn run_start(story: &mut Story, line: &[u8], says: &[u8]) -> bool {
    let mut fresh = [0u8; 4224];
    let size = text::read_bytes(text::word(line, 2), &mut fresh);
    let Ok((frame, sender)) = sending::start(&fresh[..size]) else {
        return says_13(says);
    };
    story.sender = sender;
    story.size = size;
    story.message = fresh;
    says_frame(says, frame)
}

fn run_flow(story: &mut Story, line: &[u8], says: &[u8]) -> bool {
    let frame = read_frame(text::word(line, 2));
    match sending::flow(&mut story.sender, frame) {
        Ok(FlowAnswer::Go(separation)) => says_number(says, b"< 0 go ", separation as u64),
        Ok(FlowAnswer::Wait) => text::stands(says, 0, b"< 0 wait"),
        Ok(FlowAnswer::Aborted) => text::stands(says, 0, b"< 0 aborted"),
        Err(_) => says_13(says),
    }
}

fn run_next(story: &mut Story, says: &[u8]) -> bool {
    let size = text::most(story.size, &story.message);
    match sending::next(&mut story.sender, &story.message[..size]) {
        Some(frame) => says_frame(says, frame),
        None => text::stands(says, 0, b"< 0 nothing"),
    }
}

// ---- the lines

fn run_step(story: &mut Story, line: &[u8], says: &[u8]) -> bool {
    match text::byte_at(line, 2) {
        b't' => run_take(story, line, says),
        b's' => run_start(story, line, says),
        b'f' => run_flow(story, line, says),
        _ => run_next(story, says),
    }
}

fn take_line(story: &mut Story, line: &[u8], says: &[u8]) -> Read {
    match text::byte_at(line, 0) {
        b'r' => new_receiver(story, line),
        b's' => new_sender(story),
        b'>' => return Read::Step(run_step(story, line, says)),
        _ => {}
    }
    Read::Other
}

// The line behind a step; of any other line, nothing.
fn read_answer(fd: i32, line: &[u8], says: &mut [u8]) -> usize {
    if text::byte_at(line, 0) == b'>' {
        text::read_line(fd, says)
    } else {
        0
    }
}

// The next line, with its answer; none at the end of the file.
fn next_line(story: &mut Story, fd: i32, line: &mut Line, says: &mut Line) -> Option<Read> {
    let n = text::read_line(fd, line);
    if n == 0 {
        return None;
    }
    let n = text::most(n, line);
    let k = read_answer(fd, line, says);
    let k = text::most(k, says);
    Some(take_line(story, &line[..n], &says[..k]))
}

// ---- counting

// Counts a step, and tells of one that differs; its line is the next behind those read before. Answers the line that
// was read last: a step is two lines, with that of its answer.
fn count(tally: &mut Tally, name: &[u8], before: u32, read: Read) -> u32 {
    let line = text::one_more(before);
    let Read::Step(agrees) = read else {
        return line;
    };
    if !agrees {
        text::say_differs(name, line);
    }
    tally.count(agrees);
    text::one_more(line)
}

fn run_lines(name: &[u8], fd: i32) -> Tally {
    let mut line = [0u8; 16384];
    let mut says = [0u8; 16384];
    let mut story = begin();
    let mut tally = Tally::new();
    let mut last = 0;
    for _ in 0..1_000_000_000usize {
        let Some(read) = next_line(&mut story, fd, &mut line, &mut says) else {
            return tally;
        };
        last = count(&mut tally, name, last, read);
    }
    tally
}

fn run_file(rt: &impl Files<File = File>, name: &[u8]) {
    let Some(file) = files::open_read(rt, name) else {
        io::write_all(1, name);
        io::write_all(1, b": cannot be read\n");
        return;
    };
    let tally = run_lines(name, file.as_raw_fd());
    drop(file);
    tally.say(name);
}

fn main(rt: HostRuntime) {
    run_file(&rt, b"sentences.txt");
    run_file(&rt, b"transport.txt");
}
