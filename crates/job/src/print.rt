// The printed lines.
ghost use Rattle.std.specs.Prelude.{[], ◌∷◌, ◌++◌};
ghost use Rattle.text.specs.Bytes.{feed};
ghost use Rattle.text.specs.Numbers.{decimal};
ghost use Rattle.text.specs.Writing.{Wrote};
ghost use Rattle.rules.specs.Answers.{number_of};
ghost use Rattle.job.specs.Output.{wrong_text, kept_line, kept_lines};

use rules::Answer;
use text::puts::{put_byte, put_number, put_word};

// A word with its tab, a number and the line feed.
pub(crate) fn put_line(output: &mut [u8], at: usize, word: &[u8], number: usize) -> usize
    ensures { Wrote output.old at (word.now ++ (decimal number ++ feed ∷ [])) output.new result }
{
    let past_word = put_word(output, at, word);
    let past_number = put_number(output, past_word, number);
    put_byte(output, past_number, b'\n')
}

// What a wrong sheet is answered with, and its first wrong line.
pub(crate) fn put_wrong(output: &mut [u8], answer: Answer, line: usize) -> usize
    ensures { Wrote output.old 0 (wrong_text (number_of answer) line) output.new result }
{
    if answer == Answer::NumberOutside {
        return put_line(output, 0, b"range\t", line);
    }
    put_line(output, 0, b"sheet\t", line)
}

// The kept line of one place.
pub(crate) fn put_kept(output: &mut [u8], at: usize, place: usize, mask: u16) -> usize
    ensures { Wrote output.old at (kept_line place mask) output.new result }
{
    let past_word = put_word(output, at, b"kept\t");
    let past_place = put_number(output, past_word, place);
    put_line(output, past_place, b"\t", mask as usize)
}

// The kept lines of all places.
pub(crate) fn put_masks(output: &mut [u8], kept: &[u16]) -> usize
    ensures { Wrote output.old 0 (kept_lines 0 kept.now) output.new result }
{
    let mut at: usize = 0;
    for (i, mask) in kept.iter().enumerate() {
        at = put_kept(output, at, i, *mask);
    }
    at
}
