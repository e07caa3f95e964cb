// The names file of the page: "lines of a trouble code in hexadecimal and a name in UTF-8".
#![tactic(auto)]

ghost use Rattle.std.specs.Prelude.{◌≡◌, ◌+◌, ◌≤◌, ◌<◌, length, drop};
ghost use Rattle.page_names.specs.Utf8.{within, awaits, after_long, after_first, after, is_text};
ghost use Rattle.page_names.specs.Names.{is_hex, is_space, leading, digits_in, code_end, name_start, is_good, worth_of, worth};
ghost use Rattle.page_names.specs.Names.{kept, is_of, name_of, is_bad, first_bad, most_names};

// ---- "a name in UTF-8"

// How many bytes of a character are still to come, and from where to where the next of them lies.
#[derive(Clone, Copy)]
struct Awaited {
    left: u8,
    low: u8,
    high: u8,
}

fn within(low: u8, high: u8, b: u8) -> bool
    ensures { result ≡ within low high b }
{
    (low <= b) & (b <= high)
}

fn awaits(left: u8, low: u8, high: u8) -> Awaited
    ensures { result ≡ awaits left low high }
{
    Awaited { left, low, high }
}

// What follows the first byte of a character of three bytes, or of four.
fn after_long(b: u8) -> Awaited
    ensures { result ≡ after_long b }
{
    if b == 0xE0 {
        return awaits(2, 0xA0, 0xBF);
    }
    if b == 0xED {
        return awaits(2, 0x80, 0x9F);
    }
    if within(0xE1, 0xEF, b) {
        return awaits(2, 0x80, 0xBF);
    }
    if b == 0xF0 {
        return awaits(3, 0x90, 0xBF);
    }
    if b == 0xF4 {
        return awaits(3, 0x80, 0x8F);
    }
    if within(0xF1, 0xF3, b) {
        return awaits(3, 0x80, 0xBF);
    }
    awaits(4, 1, 0)
}

// What follows the first byte of a character.
fn after_first(b: u8) -> Awaited
    ensures { result ≡ after_first b }
{
    if within(0x20, 0x7E, b) {
        return awaits(0, 0, 0);
    }
    if within(0xC2, 0xDF, b) {
        return awaits(1, 0x80, 0xBF);
    }
    after_long(b)
}

// What follows one byte more.
fn after(a: Awaited, b: u8) -> Awaited
    ensures { result ≡ after a b }
{
    if a.left == 0 {
        return after_first(b);
    }
    if within(a.low, a.high, b) {
        return awaits(a.left - 1, 0x80, 0xBF);
    }
    awaits(4, 1, 0)
}

// Whether the bytes are well-formed UTF-8 without a control byte.
fn is_text(bytes: &[u8]) -> bool
    ensures { result ≡ is_text bytes.now }
{
    let whole = awaits(0, 0, 0);
    bytes.iter().fold(whole, |a, b| after(a, *b)).left == 0
}

// ---- a line

fn is_hex(b: u8) -> bool
    ensures { result ≡ is_hex b }
{
    within(b'0', b'9', b) | within(b'A', b'F', b) | within(b'a', b'f', b)
}

// How many digits stand in front.
fn digits_in(line: &[u8]) -> usize
    ensures { result ≡ digits_in line.now }
{
    line.iter().take_while(|b| is_hex(**b)).count()
}

// The end of its code: behind the digits, and behind an h that follows them.
fn code_end(line: &[u8]) -> usize
    ensures { result ≡ code_end line.now }
{
    let digits = digits_in(line);
    if line.len() <= digits {
        return digits;
    }
    if line[digits] == b'h' {
        return digits + 1;
    }
    digits
}

// How many spaces stand in front.
fn spaces_in(text: &[u8]) -> usize
    ensures { result ≡ leading is_space text.now }
{
    text.iter().take_while(|b| **b == b' ').count()
}

// The start of its name, behind the spaces.
fn name_start(line: &[u8]) -> usize
    ensures { result ≡ name_start line.now }
{
    let end = code_end(line);
    end + spaces_in(&line[end..])
}

// One to six digits, an h or none, one space or more, a name of 1 to 120 bytes.
fn is_good(line: &[u8]) -> bool
    ensures { result ≡ is_good line.now }
{
    let digits = digits_in(line);
    let end = code_end(line);
    let start = name_start(line);
    let size = line.len() - start;
    let name = &line[start..];
    ((1 <= digits) & (digits <= 6)) & (end < start) & ((1 <= size) & (size <= 120)) & is_text(name)
}

// What a digit is worth.
fn worth_of(b: u8) -> u32
    ensures { result ≡ worth_of b }
{
    if b <= b'9' {
        return b as u32 % 16;
    }
    (b as u32 + 9) % 16
}

// What the first digits are worth.
fn worth(line: &[u8], digits: usize) -> u32
    requires { (digits ≤ 6) × (digits ≤ length line.now) }
    ensures { result ≡ worth digits line.now }
{
    let mut n = 0;
    for &b in &line[..digits] {
        n = 16 * n + worth_of(b);
    }
    n
}

// Whether it is a good line with this code.
fn is_of(line: &[u8], code: u32) -> bool
    ensures { result ≡ is_of code line.now }
{
    if !is_good(line) {
        return false;
    }
    worth(line, digits_in(line)) == code
}

// Whether it is neither empty nor good.
fn is_bad(line: &[u8]) -> bool
    ensures { result ≡ is_bad line.now }
{
    !line.is_empty() & !is_good(line)
}

// The line without a carriage return at its end.
fn kept<'a>(line: &'a [u8]) -> &'a [u8]
    ensures { result.now ≡ kept line.now }
{
    if line.is_empty() {
        return line;
    }
    let last = line.len() - 1;
    if line[last] == b'\r' {
        return &line[..last];
    }
    line
}

// ---- the file

// "events are shown by name beside the code": the name of the first good line with this code; no bytes where there is
// no such line.
pub fn name_of<'a>(file: &'a [u8], code: u32) -> &'a [u8]
    requires { length file.now ≤ most_names }
    ensures { result.now ≡ name_of code file.now }
{
    for line in file.split(|b| *b == b'\n') {
        let line = kept(line);
        if is_of(line, code) {
            return &line[name_start(line)..];
        }
    }
    &[]
}

// "A bad line of that file is a clear message with its number": the number of the first.
pub fn first_bad(file: &[u8]) -> Option<u16>
    requires { length file.now ≤ most_names }
    ensures { result ≡ first_bad file.now }
{
    let mut number: usize = 1;
    for line in file.split(|b| *b == b'\n') {
        if is_bad(kept(line)) {
            return Some(number as u16);
        }
        number += 1;
    }
    None
}
