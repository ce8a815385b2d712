// The bytes of a text: how each is sorted, and the words.
ghost use Rattle.std.specs.Prelude.{◌≡◌, ◌+◌, length};
ghost use Rattle.text.specs.Bytes.{sort_of};
ghost use Rattle.text.specs.Lines.{strip_word, strip_view};

#[derive(Clone, Copy, PartialEq, Eq)]
pub enum Sort {
    Digit,
    Tab,
    Feed,
    Small,
    Other,
}

// How a byte is sorted: the reader's next step goes by this.
#[tactic(auto, unfolding(crate::specs::Bytes::sort_of))]
pub fn sort_of(byte: u8) -> Sort
    ensures { result ≡ sort_of byte }
{
    match byte {
        b'0'..=b'9' => Sort::Digit,
        b'\t' => Sort::Tab,
        b'\n' => Sort::Feed,
        b'a'..=b'z' => Sort::Small,
        _ => Sort::Other,
    }
}

// Whether a line begins with a word and a tab. A byte is compared with the word's letter once it is sorted as a small letter.
pub fn begins(line: &[u8], word: &[u8]) -> bool
    ensures { strip_view line.now (length word.now + 1) result ≡ strip_word word.now line.now }
{
    if line.len() <= word.len() {
        return false;
    }
    // by place: as a chain, three wrong programs would break one and the same fact
    for k in 0..word.len() {
        let b = line[k];
        if sort_of(b) != Sort::Small || b != word[k] {
            return false;
        }
    }
    sort_of(line[word.len()]) == Sort::Tab
}
