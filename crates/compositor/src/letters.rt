// The letters of a line: counted, held to V, and the places of each value noted.
ghost use Rattle.std.specs.Prelude.{◌≡◌, true, false, ◌≤◌, MatchOption};
ghost use Rattle.meaning.specs.Bounds.{most_values};
ghost use Rattle.patterns.specs.Line.{letters_of, letters_right};
ghost use Rattle.compositor.specs.Inner.{letter_fits, Noted, Marked};

use crate::parts::MOST_LETTERS;
use crate::reader::is_letter;
use rules::bounds;

// The letter places of each value.
pub(crate) type Marks = [u32; bounds::MOST_VALUES];

// Whether the byte is no letter, or one below V that there is still room for.
#[tactic(auto, unfolding(crate::specs::Inner::letter_fits, patterns::specs::Line::is_letter))]
fn letter_fits(values: usize, count: usize, b: u8) -> bool
    ensures { result ≡ letter_fits values count b }
{
    !is_letter(b) || ((b - b'a') as usize) < values && count < MOST_LETTERS
}

// Notes a letter at the place `count`, and tells the next place. Any other byte is passed over.
fn note(marks: &mut Marks, count: usize, b: u8) -> usize
    requires { letter_fits most_values count b ≡ true }
    ensures { Noted b count marks.old marks.new result }
{
    if !is_letter(b) {
        return count;
    }
    let v = (b - b'a') as usize;
    marks[v] |= 1u32 << count;
    count + 1
}

// The places of each value, where the letters are few enough and each below V.
pub(crate) fn note_letters(line: &[u8], values: usize) -> Option<Marks>
    requires { values ≤ most_values }
    ensures { MatchOption result (letters_right values (letters_of line.now) ≡ false) (Marked values (letters_of line.now)) }
{
    let mut marks = [0u32; bounds::MOST_VALUES];
    let mut count: usize = 0;
    for b in line {
        if !letter_fits(values, count, *b) {
            return None;
        }
        count = note(&mut marks, count, *b);
    }
    Some(marks)
}
