// Makes the page of every case of data/ by the library function of the page program, compares it with the page that is
// expected, and prints the file and the first line of each that differs, and how many cases ran and how many differed.
#![tactic(auto)]

ghost use Rattle.std.specs.Prelude.{IfOk, ◌≡◌, ◌≤◌, length};
ghost use Rattle.page_names.specs.Names.{most_names};

use page_heads::Unused;
use std::fs::File;
use std::os::fd::AsRawFd;
use std::rt::Files;
use text::Tally;

// ---- comparing

// The first line in which the two differ; 0 where they do not.
fn differing_line(page: &[u8], expected: &[u8]) -> u32 {
    let mut line = 1;
    for (a, b) in page.iter().zip(expected) {
        if a != b {
            return line;
        }
        if *a == b'\n' {
            line = text::one_more(line);
        }
    }
    if page.len() == expected.len() {
        0
    } else {
        line
    }
}

// ---- the cases

// The bytes from one place to another; none where they do not lie within the text.
fn part<'a>(text: &'a [u8], from: usize, to: usize) -> &'a [u8]
    ensures { length result.now ≤ length text.now }
{
    if to < from {
        return &text[..0];
    }
    if text.len() < to {
        return &text[..0];
    }
    &text[from..to]
}

// The place of the first space or newline from a place on.
fn word_end(text: &[u8], from: usize) -> usize {
    from + text::rest(text, from)
        .iter()
        .take_while(|byte| b' ' < **byte)
        .count()
}

// The place behind a space or newline.
fn behind(at: usize) -> usize {
    at.saturating_add(1)
}

// Reads the front of a file, and answers how many bytes; 0 where it cannot be read.
fn read_file(rt: &impl Files<File = File>, path: &[u8], buffer: &mut [u8]) -> usize {
    let Some(file) = files::open_read(rt, path) else {
        return 0;
    };
    let length = io::read_full(file.as_raw_fd(), buffer);
    drop(file);
    length
}

// The names of a case; `-` stands for no file.
fn names_of(rt: &impl Files<File = File>, path: &[u8], names: &mut [u8]) -> Result<usize, Unused>
    ensures { IfOk result (λ size. (size ≤ most_names) × (size ≤ length names.new)) }
{
    if path.len() == 1 {
        return Ok(0);
    }
    page_story::read_names(rt, path, names)
}

// Room for a page. The `ensures` gives only the length.
fn blank() -> [u8; page_story::MOST_PAGE]
    ensures { 2010000 ≡ length result }
{
    [0; page_story::MOST_PAGE]
}

// Room for an expected page.
fn room() -> [u8; 400000]
    ensures { 400000 ≡ length result }
{
    [0; 400000]
}

// The first line in which the page differs from that of the file; 0 where there is none.
fn differing_line_of(rt: &impl Files<File = File>, page: &[u8], file: &[u8]) -> u32 {
    let mut wanted = room();
    let length = read_file(rt, file, &mut wanted);
    differing_line(page, part(&wanted, 0, length))
}

// The first line in which the page of the log and the names differs from the expected one; 0 where there is none.
fn run_case(rt: &impl Files<File = File>, log: &[u8], names: &[u8], expected: &[u8]) -> u32 {
    let mut text = [0; 32769];
    let mut named = [0; 65536];
    let mut buffer = blank();
    let size = read_file(rt, log, &mut text);
    let longer = 32768 < size;
    let given = names_of(rt, names, &mut named);
    let length = page_story::page(
        &mut buffer,
        part(&text, 0, size),
        longer,
        &named[..given.unwrap_or(0)],
        given.err(),
    );
    differing_line_of(rt, &buffer[..length], expected)
}

// Runs the case whose three files are named from a place on, a log, its names, its page, and answers the place behind
// them. A case that differs is told by the file of its expected page and the line there.
fn run_next(rt: &impl Files<File = File>, list: &[u8], at: usize, tally: &mut Tally) -> usize {
    let log = word_end(list, at);
    let second = behind(log);
    let names = word_end(list, second);
    let third = behind(names);
    let expected = word_end(list, third);
    let page = part(list, third, expected);
    let line = run_case(rt, part(list, at, log), part(list, second, names), page);
    if 0 < line {
        text::say_differs(page, line);
    }
    tally.count(line == 0);
    behind(expected)
}

fn run_all(rt: &impl Files<File = File>, list: &[u8]) -> Tally {
    let mut tally = Tally::new();
    let mut at = 0;
    for _case in 0..list.len() {
        if list.len() <= at {
            return tally;
        }
        at = run_next(rt, list, at, &mut tally);
    }
    tally
}

fn main(rt: HostRuntime) {
    let mut list = [0; 4096];
    let length = read_file(&rt, b"cases", &mut list);
    let tally = run_all(&rt, part(&list, 0, length));
    tally.say(b"page cases");
}
