// The input's two parts.
ghost use Rattle.job.specs.Inner.{CutAt};

use text::bytes::{Sort, sort_of};

// Where the sheet ends, and where the job begins, if there is an empty line between them.
#[derive(Clone, Copy)]
pub(crate) struct Cut {
    pub(crate) sheet: usize,
    pub(crate) job: Option<usize>,
}

// Cuts the input at its first empty line.
pub(crate) fn cut_at(input: &[u8]) -> Cut
    ensures { CutAt input.now result.sheet result.job }
{
    let mut start = true;
    for i in 0..input.len() {
        let feed = sort_of(input[i]) == Sort::Feed;
        if start && feed {
            return Cut {
                sheet: i,
                job: Some(i + 1),
            };
        }
        start = feed;
    }
    Cut {
        sheet: input.len(),
        job: None,
    }
}
