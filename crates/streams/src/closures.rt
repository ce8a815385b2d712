// A closure run as a job, by public names alone, as another crate would: the job is a type whose invariant says that the closure may be called.
ghost use Rattle.std.specs.Prelude.{◌≡◌, ◌≤◌, List, ℕ, length, take, true};
ghost use Rattle.std.specs.Io.KnownBytes.{Consumes, Appends};

use crate::{Job, run_job};
use std::io::{Cursor, Read, Write};
use std::marker::Model;

// What may be called where that is known. A trait, since a type's invariant can cite its members, and not yet those of a closure's bound.
trait Call: Drop {
    ghost callable: { Self → Type 0 };

    ghost gives: { Self → List ℕ → List ℕ → ℕ → List ℕ → Type 0 };

    fn call(&self, input: &[u8], output: &mut [u8]) -> usize
        requires { callable self.now }
        ensures { gives self.now input.now output.old result output.new };
}

#[derive(Drop)]
struct Closure<F> {
    f: F,
}

impl<F: Fn(&[u8], &mut [u8]) -> usize> Call for Closure<F> {
    ghost callable = { λ c. F.IsAlwaysCallable c.f };

    ghost gives = { λ c input was given now. (x : _) × (y : _) × (z : _) × (x.now ≡ input) × (y.now ≡ was) × (z.now ≡ now) × F.post c.f x y given z };

    fn call(&self, input: &[u8], output: &mut [u8]) -> usize {
        (self.f)(input, output)
    }
}

// What may be called, and is known to.
#[derive(Drop)]
struct Ready<C: Call> {
    call: C,
}

impl<C: Call> Model for Ready<C> {
    ghost Value = { C };

    ghost view = { λ r. r.call };

    ghost invariant = { λ r. C.callable r.call };
}

impl<C: Call> Job for Ready<C> {
    ghost puts = { C.gives };

    fn put(&self, input: &[u8], output: &mut [u8]) -> usize {
        self.call.call(input, output)
    }
}

// A step of its own: the borrow checker does not cover yet a `Ready` that is made where the closure's type is known.
fn run_ready<R: Read, W: Write, C: Call>(
    input: &mut R,
    space: &mut [u8],
    call: C,
    output: &mut [u8],
    out: &mut W,
) -> bool
    requires { C.callable call }
    ensures { (x : List ℕ) × (r : ℕ) × Consumes (R.remaining input.old) (R.remaining input.new) x × C.gives call x output.old r output.new × (result ≡ true → Appends (W.contents out.old) (W.contents out.new) (take r output.new)) }
{
    run_job(input, space, &Ready { call }, output, out)
}

// What `streams::run` was while it took a closure, with what it asked and gave then (docs/LOOK-BACK.md, "Brought back").
fn run_closure<R: Read, W: Write, F: Fn(&[u8], &mut [u8]) -> usize>(
    input: &mut R,
    space: &mut [u8],
    job: F,
    output: &mut [u8],
    out: &mut W,
) -> bool
    requires callable { F.IsAlwaysCallable job }
    requires fits { (x : _) (y : _) (r : _) (z : _) → y.now ≡ output.old → F.post job x y r z → r ≤ length output.old }
    ensures { (x : _) × (y : _) × (r : _) × (z : _) × Consumes (R.remaining input.old) (R.remaining input.new) x.now × (y.now ≡ output.old) × F.post job x y r z × (z.now ≡ output.new) × (result ≡ true → Appends (W.contents out.old) (W.contents out.new) (take r output.new)) }
{
    run_ready(input, space, Closure { f: job }, output, out)
}

#[test]
fn runs_a_closure_that_holds_a_letter(rt: HostRuntime) {
    for (letter, want) in [(b'x', "xxx....."), (b'y', "yyy.....")] {
        let mut input = "abc".as_bytes();
        let mut space = [0u8; 4];
        let mut output = [0u8; 5];
        let mut out = Cursor::new([b'.'; 8]);
        let job = move |text: &[u8], lent: &mut [u8]| {
            lent.fill(letter);
            text.len().min(lent.len())
        };
        assert!(rt; run_closure(&mut input, &mut space, job, &mut output, &mut out));
        assert_eq!(rt; out.into_inner().as_slice(), want.as_bytes());
    }
}
