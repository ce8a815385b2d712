// Bytes read from a reader and written to a writer, into and from memory that the caller lends.
#![tactic(auto)]

ghost use Rattle.std.specs.Prelude.{◌≡◌, ◌≤◌, List, ℕ, length, take, true};
ghost use Rattle.std.specs.Fmt.{decimal};
ghost use Rattle.std.specs.Io.KnownBytes.{Consumes, Appends};

use std::io::{Read, Write};

#[cfg(test)]
mod closures;

// Fills a buffer from its start until it is full, the input ends or a read fails, and gives how many bytes it holds then: the first ones
// of those that the input had left.
pub fn read_full<R: Read>(input: &mut R, buffer: &mut [u8]) -> usize
    ensures within { result ≤ length buffer.new }
    ensures keeps { length buffer.new ≡ length buffer.old }
    ensures bytes { Consumes (R.remaining input.old) (R.remaining input.new) (take result buffer.new) }
{
    // no `for`: each read says itself how far it goes
    let mut done: usize = 0;
    while done < buffer.len() {
        match input.read(&mut buffer[done..]) {
            Ok(0) => return done,
            Ok(n) => done += n,
            Err(_) => return done,
        }
    }
    done
}

// Writes all bytes, or stops where the output takes no more; gives whether all were written.
pub fn write_all<W: Write>(output: &mut W, bytes: &[u8]) -> bool
    ensures { result ≡ true → Appends (W.contents output.old) (W.contents output.new) bytes.now }
{
    output.write_all(bytes).is_ok()
}

// Writes a number in decimal digits, as few as it has.
pub fn write_decimal<W: Write>(output: &mut W, number: u64) -> bool
    ensures { result ≡ true → Appends (W.contents output.old) (W.contents output.new) (decimal number) }
{
    write!(output, "{number}").is_ok()
}

// A program's work, for outputs of N bytes: puts what comes of an input into the output, and gives how many bytes of it are to be written.
#[derive(Clone, Copy)]
pub struct Work<const N: usize> {
    pub job: fn(&[u8], &mut [u8]) -> usize,
    ghost callable: { IsAlwaysCallable job },
    ghost fits: { (x : _) (y : _) (r : _) (z : _) → length y.now ≡ N → post job x y r z → r ≤ N },
}

// A program from bytes to bytes: fills `space` from the input, lets the job put what comes of these bytes into `output`, and writes as much of
// that as the job says; gives whether all was written.
pub fn run<R: Read, W: Write, const N: usize>(
    input: &mut R,
    space: &mut [u8],
    work: &Work<N>,
    output: &mut [u8; N],
    out: &mut W,
) -> bool
    ensures { (x : _) × (y : _) × (r : _) × (z : _) × Consumes (R.remaining input.old) (R.remaining input.new) x.now × (y.now ≡ output.old) × post work.now.job x y r z × (z.now ≡ output.new) × (result ≡ true → Appends (W.contents out.old) (W.contents out.new) (take r output.new)) }
{
    let got = read_full(input, space);
    let length = (work.job)(&space[..got], output);
    write_all(out, &output[..length])
}

// A job that holds what it needs beside the input, as a closure would; it says itself what it may put and give.
pub trait Job {
    // for an input and what the output held, what it may give, and leave in the output
    ghost puts: { Self → List ℕ → List ℕ → ℕ → List ℕ → Type 0 };

    fn put(&self, input: &[u8], output: &mut [u8]) -> usize
        ensures { puts self.now input.now output.old result output.new };
}

// As `run`, for such a job and an output of any length; where the job gives more than that, all of the output is written.
pub fn run_job<R: Read, W: Write, J: Job>(
    input: &mut R,
    space: &mut [u8],
    job: &J,
    output: &mut [u8],
    out: &mut W,
) -> bool
    ensures { (x : List ℕ) × (r : ℕ) × Consumes (R.remaining input.old) (R.remaining input.new) x × J.puts job.now x output.old r output.new × (result ≡ true → Appends (W.contents out.old) (W.contents out.new) (take r output.new)) }
{
    let got = read_full(input, space);
    let given = job.put(&space[..got], output);
    write_all(out, &output[..given.min(output.len())])
}

#[cfg(test)]
mod tests {
    use super::*;
    use std::io::Cursor;

    // One letter all over the output; gives as many as the input has bytes.
    #[derive(Drop)]
    struct Row {
        letter: u8,
    }

    impl Job for Row {
        ghost puts = { λ _ input _ given _. given ≡ length input };

        fn put(&self, input: &[u8], output: &mut [u8]) -> usize {
            output.fill(self.letter);
            input.len()
        }
    }

    // The space holds four bytes; what is not written stays a dot.
    #[test]
    fn runs_a_job_that_holds_a_letter(rt: HostRuntime) {
        for (text, length, letter, want) in [
            ("abc", 5usize, b'x', "xxx....."),
            ("abc", 3, b'y', "yyy....."),
            ("abcd", 2, b'y', "yy......"),
            ("abcdef", 5, b'z', "zzzz...."),
            ("", 5, b'x', "........"),
        ] {
            let mut input = text.as_bytes();
            let mut space = [0u8; 4];
            let mut output = [0u8; 5];
            let mut out = Cursor::new([b'.'; 8]);
            let job = Row { letter };
            assert!(rt;
                run_job(
                    &mut input,
                    &mut space,
                    &job,
                    &mut output[..length],
                    &mut out
                )
            );
            assert_eq!(rt;
                out.into_inner().as_slice(),
                want.as_bytes(),
                "{text} to {length} bytes"
            );
        }
    }
}
