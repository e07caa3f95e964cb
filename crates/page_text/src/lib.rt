// The text of a page: fixed texts, names and numbers put into a lent buffer.
#![tactic(auto)]

ghost use Rattle.std.specs.Prelude.{◌≡◌, cond, [], ◌*◌, ◌<◌, length};
ghost use Rattle.page_text.specs.Page.{HasRoom, Adds};
ghost use Rattle.page_text.specs.Escape.{escaped_byte, escaped};
ghost use Rattle.page_text.specs.Numbers.{digit, decimal, hex_digit, hex_byte, hex_code};

// A page that is being written: the lent buffer, and the place in it that comes next.
#[derive(Drop)]
pub struct Page<'a> {
    pub buffer: &'a mut [u8],
    pub at: usize,
}

impl<'a> Page<'a> {
    // ---- texts

    // Puts the bytes as they are.
    pub fn put(&mut self, bytes: &[u8])
        requires { HasRoom (length bytes.now) self.old }
        ensures { Adds bytes.now (length bytes.now) self.old self.new }
    {
        let end = writing::write(self.buffer, self.at, bytes);
        self.at = end;
    }

    // Puts them where a test holds.
    pub fn put_if(&mut self, test: bool, bytes: &[u8])
        requires { HasRoom (length bytes.now) self.old }
        ensures { Adds (cond test bytes.now []) (length bytes.now) self.old self.new }
    {
        if test {
            self.put(bytes);
        }
    }

    // ---- names

    // Puts one byte of a name.
    fn put_byte(&mut self, byte: u8)
        requires { HasRoom 6 self.old }
        ensures { Adds (escaped_byte byte) 6 self.old self.new }
    {
        match byte {
            b'<' => self.put(b"&lt;"),
            b'>' => self.put(b"&gt;"),
            b'&' => self.put(b"&amp;"),
            b'"' => self.put(b"&quot;"),
            b'\'' => self.put(b"&#39;"),
            _ => self.put(&[byte]),
        }
    }

    // "Every byte of a name that HTML gives a meaning is escaped."
    pub fn put_escaped(&mut self, name: &[u8])
        requires { HasRoom (6 * length name.now) self.old }
        ensures { Adds (escaped name.now) (6 * length name.now) self.old self.new }
    {
        for &byte in name {
            self.put_byte(byte);
        }
    }

    // ---- numbers

    // "decimal"
    pub fn put_decimal(&mut self, n: u16)
        requires { HasRoom 5 self.old }
        ensures { Adds (decimal n) 5 self.old self.new }
    {
        let ones = digit(n % 10);
        let tens = digit(n / 10 % 10);
        let hundreds = digit(n / 100 % 10);
        let thousands = digit(n / 1000 % 10);
        if n < 10 {
            return self.put(&[ones]);
        }
        if n < 100 {
            return self.put(&[tens, ones]);
        }
        if n < 1000 {
            return self.put(&[hundreds, tens, ones]);
        }
        if n < 10000 {
            return self.put(&[thousands, hundreds, tens, ones]);
        }
        self.put(&[digit(n / 10000 % 10), thousands, hundreds, tens, ones]);
    }

    // A status byte.
    pub fn put_hex_byte(&mut self, n: u32)
        requires { HasRoom 3 self.old }
        ensures { Adds (hex_byte n) 3 self.old self.new }
    {
        self.put(&[hex_digit(n / 16 % 16), hex_digit(n % 16), b'h']);
    }

    // A trouble code.
    pub fn put_code(&mut self, n: u32)
        requires { HasRoom 7 self.old }
        ensures { Adds (hex_code n) 7 self.old self.new }
    {
        self.put(&hex_code(n));
    }
}

// ---- digits

fn digit(d: u16) -> u8
    requires { d < 10 }
    ensures { result ≡ digit d }
{
    b'0' + d as u8
}

fn hex_digit(d: u32) -> u8
    requires { d < 16 }
    ensures { result ≡ hex_digit d }
{
    if d < 10 {
        b'0' + d as u8
    } else {
        b'7' + d as u8
    }
}

fn hex_code(n: u32) -> [u8; 7]
    ensures { result ≡ hex_code n }
{
    [
        hex_digit(n / 1048576 % 16),
        hex_digit(n / 65536 % 16),
        hex_digit(n / 4096 % 16),
        hex_digit(n / 256 % 16),
        hex_digit(n / 16 % 16),
        hex_digit(n % 16),
        b'h',
    ]
}
