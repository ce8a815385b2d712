// Reading a script's line: a field begins with a tab.
ghost use Rattle.std.specs.Prelude.{◌≤◌, length};

// What a line does with the slice that it names.
#[derive(Clone, Copy)]
pub(crate) enum OnSlice {
    Length,
    Put,
    Fill,
    Show,
}

#[derive(Clone, Copy)]
pub(crate) enum Call {
    Filter,
    First,
    Report,
    Mend,
    Check,
    Read,
    Pattern,
    Write,
    Job,
    MendJob,
    PatternJob,
    Open,
    Keep,
    Limit,
    Mark,
    Back,
}

// The words that a line begins with.
#[derive(Clone, Copy)]
pub(crate) enum Word {
    Remark,
    Size,
    Bytes,
    Slice(OnSlice),
    Call(Call),
}

// Each word with the byte that must follow its letters.
const WORDS: [(&[u8], Word); 23] = [
    (b"#", Word::Remark),
    (b"size\t", Word::Size),
    (b"length\t", Word::Slice(OnSlice::Length)),
    (b"put\t", Word::Slice(OnSlice::Put)),
    (b"fill\t", Word::Slice(OnSlice::Fill)),
    (b"show\t", Word::Slice(OnSlice::Show)),
    (b"bytes\t", Word::Bytes),
    (b"filter\n", Word::Call(Call::Filter)),
    (b"first\t", Word::Call(Call::First)),
    (b"report\n", Word::Call(Call::Report)),
    (b"mend\t", Word::Call(Call::Mend)),
    (b"check\t", Word::Call(Call::Check)),
    (b"read\n", Word::Call(Call::Read)),
    (b"pattern\n", Word::Call(Call::Pattern)),
    (b"write\n", Word::Call(Call::Write)),
    (b"job\n", Word::Call(Call::Job)),
    (b"mendjob\n", Word::Call(Call::MendJob)),
    (b"patternjob\n", Word::Call(Call::PatternJob)),
    (b"open\n", Word::Call(Call::Open)),
    (b"keep\t", Word::Call(Call::Keep)),
    (b"limit\t", Word::Call(Call::Limit)),
    (b"mark\n", Word::Call(Call::Mark)),
    (b"back\n", Word::Call(Call::Back)),
];

// The word that a line begins with, if it is one of ours.
pub(crate) fn word_of(line: &[u8]) -> Option<Word> {
    WORDS
        .iter()
        .find(|(letters, _)| line.starts_with(letters))
        .map(|(_, word)| *word)
}

// A field's number, and where the field ends.
#[derive(Clone, Copy)]
pub(crate) struct Number {
    pub(crate) value: u64,
    pub(crate) end: usize,
}

// A number with one more digit; what is too wide loses its upper bits.
fn appended(value: u64, digit: u8) -> u64 {
    if value <= u64::MAX / 10 {
        (value * 10).wrapping_add(u64::from(digit))
    } else {
        value
    }
}

// The number in the field that begins at a place; where none begins, 0.
pub(crate) fn number_at(line: &[u8], at: usize) -> Number {
    let mut value = 0;
    for end in at..line.len() {
        match line[end] {
            byte @ b'0'..=b'9' => value = appended(value, byte - b'0'),
            b'\t' if end == at => {}
            _ => return Number { value, end },
        }
    }
    Number {
        value,
        end: at.max(line.len()),
    }
}

// The numbers of two fields: how many or where, and what.
pub(crate) fn pair_at(line: &[u8], at: usize) -> (usize, u64) {
    let first = number_at(line, at);
    (first.value as usize, number_at(line, first.end).value)
}

// Where the field that begins at a place ends.
pub(crate) fn field_end(line: &[u8], at: usize) -> usize
    ensures { (at ≤ result) × (at ≤ length line.now → result ≤ length line.now) }
{
    for end in at..line.len() {
        if line[end] == b'\n' || line[end] == b'\t' && end != at {
            return end;
        }
    }
    at.max(line.len())
}

// The first letter of the field that begins at a place.
pub(crate) fn letter_at(line: &[u8], at: usize) -> Option<u8> {
    line.get(at.saturating_add(1)).copied()
}
