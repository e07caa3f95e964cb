// A line of a file of stored cases, the numbers and bytes in it, and how many cases ran and differed. A text is what is
// left of a line from a place on.
#![tactic(auto)]

ghost use Rattle.std.specs.Prelude.{◌≡◌, ◌≤◌, ◌<◌, ◌+◌, IfSome, cond, min, length, slice_index, take, drop};

// ---- a line

// The next byte of a file; none at its end.
fn read_byte(fd: i32) -> Option<u8> {
    let mut one = [0u8; 1];
    if io::read_full(fd, &mut one) == 0 {
        None
    } else {
        Some(one[0])
    }
}

// The next line with its newline, at the front; its length, 0 at the end of the file.
pub fn read_line(fd: i32, line: &mut [u8]) -> usize {
    for (i, place) in line.iter_mut().enumerate() {
        let Some(byte) = read_byte(fd) else {
            return i;
        };
        *place = byte;
        if byte == b'\n' {
            return i + 1;
        }
    }
    line.len()
}

// The byte at a place; 0 past the end.
pub fn byte_at(text: &[u8], at: usize) -> u8
    ensures { result ≡ slice_index text.now at }
{
    text.get(at).copied().unwrap_or(0)
}

// What stands from a place on; nothing past the end.
pub fn rest(text: &[u8], at: usize) -> &[u8]
    ensures { result.now ≡ drop at text.now }
{
    text.get(at..).unwrap_or(&[])
}

// What stands behind the first such byte; nothing where there is none.
pub fn behind(text: &[u8], mark: u8) -> &[u8] {
    match text.iter().position(|byte| *byte == mark) {
        Some(at) => &text[at + 1..],
        None => &[],
    }
}

// The line from word k on; it begins with word 0.
pub fn word(line: &[u8], k: usize) -> &[u8] {
    let mut text = line;
    for _ in 0..k {
        text = behind(text, b' ');
    }
    text
}

// Whether these bytes stand at a place.
pub fn stands(text: &[u8], at: usize, bytes: &[u8]) -> bool {
    rest(text, at).starts_with(bytes)
}

// ---- decimal numbers

fn digit(byte: &u8) -> Option<u8> {
    match *byte {
        b'0'..=b'9' => Some(*byte - b'0'),
        _ => None,
    }
}

// With one digit more: no number of a case has more than seventeen.
fn with_digit(n: u64, digit: u8) -> u64 {
    if n <= 10_000_000_000_000_000 {
        10 * n + u64::from(digit)
    } else {
        n
    }
}

// The number in front.
pub fn decimal(text: &[u8]) -> u64 {
    text.iter().map_while(digit).fold(0, with_digit)
}

// The same; the largest number of 32 bits where it is larger.
pub fn decimal_32(text: &[u8]) -> u32 {
    u32::try_from(decimal(text)).unwrap_or(u32::MAX)
}

// A number's digits.
fn magnitude(text: &[u8]) -> &[u8] {
    text.strip_prefix(b"-").unwrap_or(text)
}

// The number in front, with its sign; the nearest number of 32 bits where it is none.
pub fn integer(text: &[u8]) -> i32 {
    match text.strip_prefix(b"-") {
        Some(digits) => i32::try_from(decimal(digits)).map_or(i32::MIN, |n| -n),
        None => i32::try_from(decimal(text)).unwrap_or(i32::MAX),
    }
}

fn is_number(text: &[u8]) -> bool {
    magnitude(text)
        .first()
        .is_some_and(|byte| byte.is_ascii_digit())
}

// The list behind its first number; nothing where no separator follows that.
fn behind_number(text: &[u8], separator: u8) -> &[u8] {
    let digits = magnitude(text);
    match digits.iter().position(|byte| !byte.is_ascii_digit()) {
        Some(end) if digits[end] == separator => &digits[end + 1..],
        _ => &[],
    }
}

// The numbers of a list, each read so, no more than there is room for, and how many there are.
pub fn read_numbers<N: Copy, R: Fn(&[u8]) -> N>(
    text: &[u8],
    separator: u8,
    numbers: &mut [N],
    read: R,
) -> usize
    requires { R.IsAlwaysCallable read }
    ensures { (result ≤ length numbers.new) × (result ≡ length (take result numbers.new)) }
{
    let mut list = text;
    for (place, number) in numbers.iter_mut().enumerate() {
        if !is_number(list) {
            return place;
        }
        *number = read(list);
        list = behind_number(list, separator);
    }
    numbers.len()
}

// Whether the list in front, each number read so, is these numbers.
pub fn same_numbers<N: Copy + Into<W>, W: PartialEq + Drop, R: Fn(&[u8]) -> W>(
    text: &[u8],
    numbers: &[N],
    read: R,
) -> bool
    requires { R.IsAlwaysCallable read }
{
    let mut list = text;
    for number in numbers {
        if !is_number(list) || read(list) != (*number).into() {
            return false;
        }
        list = behind_number(list, b',');
    }
    !is_number(list)
}

// ---- hex bytes

fn hex_digit(byte: &u8) -> Option<u8>
    ensures { IfSome result (λ digit. digit < 16) }
{
    match *byte {
        b'0'..=b'9' => Some(*byte - b'0'),
        b'a'..=b'f' => Some(*byte - b'a' + 10),
        _ => None,
    }
}

// The byte of two digits; 0 where the second is none.
fn hex_byte(pair: &[u8]) -> Option<u8> {
    let high = pair.first().and_then(hex_digit)?;
    match pair.get(1).and_then(hex_digit) {
        Some(low) => Some(16 * high + low),
        None => Some(0),
    }
}

// The bytes in front, no more than there is room for, and how many there are.
pub fn read_bytes(text: &[u8], bytes: &mut [u8]) -> usize
    ensures { (result ≤ length bytes.new) × (result ≡ length (take result bytes.new)) }
{
    let mut pairs = text.chunks(2);
    for (place, byte) in bytes.iter_mut().enumerate() {
        let Some(read) = pairs.next().and_then(hex_byte) else {
            return place;
        };
        *byte = read;
    }
    bytes.len()
}

// Whether the bytes in front are these.
pub fn same_bytes(text: &[u8], bytes: &[u8]) -> bool {
    text.chunks(2).map_while(hex_byte).eq(bytes.iter().copied())
}

// ---- lengths

// So many of these, or all where there are fewer.
pub fn most<T>(n: usize, items: &[T]) -> usize
    ensures fits { (result ≤ length items.now) × (result ≡ length (take result items.now)) }
    ensures value { result ≡ min n (length items.now) }
{
    n.min(items.len())
}

// ---- counting

// The cases that ran and that differed.
#[derive(Clone, Copy)]
pub struct Tally {
    pub ran: u32,
    pub differed: u32,
}

// A count and one more; a thousand million is enough for any file.
pub fn one_more(count: u32) -> u32
    ensures { result ≡ min (count + 1) 1000000000 }
{
    count.saturating_add(1).min(1_000_000_000)
}

impl Tally {
    pub fn new() -> Tally
        ensures { (result.ran ≡ 0) × (result.differed ≡ 0) }
    {
        Tally {
            ran: 0,
            differed: 0,
        }
    }

    // A case ran, and agrees with what is expected or differs.
    pub fn count(&mut self, agrees: bool)
        ensures { (self.new.ran ≡ min (self.old.ran + 1) 1000000000)
            × (self.new.differed
            ≡ cond agrees self.old.differed (min (self.old.differed + 1) 1000000000)) }
    {
        self.ran = one_more(self.ran);
        if !agrees {
            self.differed = one_more(self.differed);
        }
    }

    // What is told of the cases: how many ran, and how many differed.
    pub fn told(self) -> (u64, u64)
        ensures { (result.0 ≡ self.ran) × (result.1 ≡ self.differed) }
    {
        (u64::from(self.ran), u64::from(self.differed))
    }

    // Says at the end of these cases how many ran and how many differed.
    pub fn say(self, name: &[u8]) {
        let (ran, differed) = self.told();
        io::write_all(1, name);
        io::write_all(1, b": ");
        io::print_decimal(1, ran);
        io::write_all(1, b" ran, ");
        io::print_decimal(1, differed);
        io::write_all(1, b" differed\n");
    }
}

// What is told of the line where a case stands: its number.
pub fn line_told(line: u32) -> u64
    ensures { result ≡ line }
{
    u64::from(line)
}

// Says of a case that differs where it stands.
pub fn say_differs(name: &[u8], line: u32) {
    io::write_all(1, name);
    io::write_all(1, b":");
    io::print_decimal(1, line_told(line));
    io::write_all(1, b" differs\n");
}
