// The program: standard input to standard output.
#![tactic(auto)]

use streams::Work;

// One byte past the ceiling is enough to know that an input is too long; the output has room for all that is printed.
fn main(rt: HostRuntime) {
    let mut space = [0u8; job::LONGEST_INPUT + 1];
    let mut output = [0u8; job::LONGEST_OUTPUT];
    let mut input = rt.stdin();
    let mut out = rt.stdout();
    let work = Work { job: job::job };
    streams::run(&mut input, &mut space, &work, &mut output, &mut out);
}
