// The replay program's text: numbers read out of the input, and a line written for each call.
#![tactic(auto)]

ghost use Rattle.std.specs.Prelude.{◌≡◌, true, ◌+◌, ◌-◌, ◌*◌, ◌≤◌, ◌<◌, length, drop};
ghost use mathlib.Core.List.{flat_map};
ghost use Rattle.history.specs.Words.{all_of};
ghost use Rattle.writing.specs.Writing.{written, append, filled};
ghost use Rattle.transcript.specs.Text.{is_separator, run, is_digit, one_to_ten_digits};
ghost use Rattle.transcript.specs.Text.{worth, largest, with_sign, read_word, next_read};
ghost use Rattle.transcript.specs.Line.{decimal, spaced, status_bytes, line, Room};

// A place in the input.
#[derive(Clone, Copy)]
pub struct Cursor {
    pub at: usize,
}

// A number of the input, and the cursor behind its word.
#[derive(Clone, Copy)]
pub struct Read {
    pub value: i32,
    pub minus: bool,
    pub next: Cursor,
}

// The next word of the input: a number, a word that is none, or no word at all.
#[derive(Clone, Copy)]
pub enum Word {
    Number(Read),
    Unreadable,
    End,
}

// "between spaces or newlines"
fn is_separator(byte: u8) -> bool
    ensures { result ≡ is_separator byte }
{
    (byte == b' ') | (byte == b'\n')
}

// What stands from a place on; nothing past the end. A slice: an iterator that skips so many bytes would step over each
// of them, for every word of the text.
fn from_on(text: &[u8], at: usize) -> &[u8]
    ensures { result.now ≡ drop at text.now }
{
    text.get(at..).unwrap_or(&[])
}

// Behind the bytes from `at` on that are separators, or that are none.
fn run_end(text: &[u8], at: usize, separators: bool) -> usize
    ensures { result ≡ at + run separators (drop at text.now) }
{
    at + from_on(text, at)
        .iter()
        .take_while(|byte| is_separator(**byte) == separators)
        .count()
}

fn all_digits(word: &[u8]) -> bool
    ensures { result ≡ all_of is_digit word.now }
{
    word.iter().all(|byte| byte.is_ascii_digit())
}

// "1 to 9 digits", with document 02's W5 "up to 10"
fn one_to_ten_digits(word: &[u8]) -> bool
    ensures { result ≡ one_to_ten_digits word.now }
{
    (1 <= word.len()) & (word.len() <= 10) & all_digits(word)
}

// What digits worth n are worth with one digit more.
fn with_digit(n: u64, digit: u8) -> u64
    requires { (n < 1000000000) × (0x30 ≤ digit) × (digit ≤ 0x39) }
    ensures { result ≡ 10 * n + (digit - 0x30) }
{
    10 * n + (digit - b'0') as u64
}

// "decimal"
fn value_of(digits: &[u8]) -> u64
    requires { one_to_ten_digits digits.now ≡ true }
    ensures { result ≡ worth 0 digits.now }
{
    let mut n = 0;
    for digit in digits {
        n = with_digit(n, *digit);
    }
    n
}

// "numbers up to 2,147,483,647"
const LARGEST: u64 = 2_147_483_647;

// "optional minus"
fn with_sign(minus: bool, n: u64) -> i32
    requires { n ≤ largest }
    ensures { result ≡ with_sign minus n }
{
    let value = n as i32;
    if minus { -value } else { value }
}

// The word as a number; `end` is the place behind it.
fn read_word(word: &[u8], end: usize) -> Word
    requires { 0 < length word.now }
    ensures { result ≡ read_word word.now end }
{
    let minus = word[0] == b'-';
    let first = minus as usize;
    let digits = &word[first..];
    if !one_to_ten_digits(digits) {
        return Word::Unreadable;
    }
    let magnitude = value_of(digits);
    if LARGEST < magnitude {
        return Word::Unreadable;
    }
    Word::Number(Read {
        value: with_sign(minus, magnitude),
        minus,
        next: Cursor { at: end },
    })
}

// The first word of the text from the cursor on, read as a number. The cursor may be anywhere.
pub fn next_number(text: &[u8], from: Cursor) -> Word
    ensures { result ≡ next_read from.at text.now }
{
    let start = run_end(text, from.at, true);
    if text.len() <= start {
        return Word::End;
    }
    let end = run_end(text, start, false);
    read_word(&text[start..end], end)
}

// "decimal"
fn put_decimal(buffer: &mut [u8], at: usize, n: u8) -> usize
    requires { at + 3 ≤ length buffer.old }
    ensures { written result buffer.new ≡ append (decimal n) (written at buffer.old) }
{
    if n < 10 {
        return writing::write(buffer, at, &[b'0' + n]);
    }
    if n < 100 {
        return writing::write(buffer, at, &[b'0' + n / 10, b'0' + n % 10]);
    }
    writing::write(
        buffer,
        at,
        &[b'0' + n / 100, b'0' + n / 10 % 10, b'0' + n % 10],
    )
}

// "single spaces"
fn put_spaced(buffer: &mut [u8], at: usize, n: u8) -> usize
    requires { at + 4 ≤ length buffer.old }
    ensures { written result buffer.new ≡ append (spaced n) (written at buffer.old) }
{
    let next = writing::write(buffer, at, b" ");
    put_decimal(buffer, next, n)
}

// "all status bytes"
fn put_statuses(buffer: &mut [u8], at: usize, records: &[u8], events: usize) -> usize
    requires { Room events records.now at buffer.old }
    ensures { written result buffer.new
        ≡ append (flat_map spaced (status_bytes events records.now)) (written at buffer.old) }
{
    let mut next = at;
    for e in 0..events {
        next = put_spaced(buffer, next, records[manual::RECORD_WIDTH * e]);
    }
    next
}

// "Each call prints answer and all status bytes, decimal, single spaces, newline."
// The line stands at the front of the buffer, and its length comes back. The buffer has 4 bytes for the call's answer
// and the newline, and 4 for each event.
pub fn fill_line(buffer: &mut [u8], answer: u8, records: &[u8], events: usize) -> usize
    requires { Room events records.now 4 buffer.old }
    ensures { written result buffer.new
        ≡ filled (line answer (status_bytes events records.now)) buffer.old }
{
    let statuses = put_decimal(buffer, 0, answer);
    let end = put_statuses(buffer, statuses, records, events);
    writing::write(buffer, end, b"\n")
}
