// Bytes of a lent block, written in place.
ghost use Rattle.std.specs.Prelude.{◌≡◌, ◌+◌, ◌≤◌, ◌<◌, length};
ghost use Rattle.memory.specs.Block.{closed};

// Moves the bytes behind the gap at `at` down by its width, and answers where the gap then is: at the end. The length
// of the move is known before its loop, so that the compiler moves many bytes at once.
fn move_down(block: &mut [u8], at: usize, width: usize) -> usize
    requires { at + width ≤ length block.old }
    ensures { (result + width ≡ length block.new)
        × (closed result width block.new ≡ closed at width block.old) }
{
    let end = block.len() - width;
    for i in at..end {
        let later = block[i + width];
        block[i] = later;
    }
    end
}

// "Removal closes the gap": takes out the bytes from `at` on, as many as the width, and ends in as many bytes 0.
pub fn close(block: &mut [u8], at: usize, width: usize)
    requires { at + width ≤ length block.old }
    ensures { block.new ≡ closed at width block.old }
{
    let rest = move_down(block, at, width);
    writing::zero_from(block, rest);
}

// A byte as a number.
pub fn wide(byte: u8) -> usize
    ensures { (result ≡ byte) × (result < 256) }
{
    byte as usize
}
