// What every layer does with lent numbers.
ghost use Rattle.std.specs.Prelude.{◌≡◌, min};
ghost use Rattle.rules.specs.Answers.{zeros};

// The lesser of two numbers.
pub fn lesser(a: u32, b: u32) -> u32
    ensures { result ≡ min a b }
{
    if a < b { a } else { b }
}

// Every number becomes 0.
pub fn clear(s: &mut [u32])
    ensures { s.new ≡ zeros s.old }
{
    s.fill(0);
}
