// Writing: bytes, words and numbers put into a buffer from a place on. What finds no room is dropped, so that a text can be measured with none.
ghost use Rattle.std.specs.Prelude.{[], ◌∷◌};
ghost use Rattle.text.specs.Numbers.{decimal};
ghost use Rattle.text.specs.Writing.{Wrote};

// Puts a byte at a place, and gives the place after it, as far as places can be counted.
pub fn put_byte(buffer: &mut [u8], at: usize, byte: u8) -> usize
    ensures { Wrote buffer.old at (byte ∷ []) buffer.new result }
{
    if buffer.len() <= at {
        return at.saturating_add(1);
    }
    buffer[at] = byte;
    at + 1
}

// Puts a word.
pub fn put_word(buffer: &mut [u8], at: usize, word: &[u8]) -> usize
    ensures { Wrote buffer.old at word.now buffer.new result }
{
    let mut next = at;
    for b in word {
        next = put_byte(buffer, next, *b);
    }
    next
}

// Puts a number in decimal digits.
pub fn put_number(buffer: &mut [u8], at: usize, number: usize) -> usize
    ensures { Wrote buffer.old at (decimal number) buffer.new result }
{
    let last = b'0' + (number % 10) as u8;
    if number < 10 {
        return put_byte(buffer, at, last);
    }
    let next = put_number(buffer, at, number / 10);
    put_byte(buffer, next, last)
}
