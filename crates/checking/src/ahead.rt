// The numbers of waiting segments.
ghost use Rattle.std.specs.Prelude.{◌≡◌};
ghost use Rattle.checking.specs.Tests.{follows, neighbours, ends_fit, ahead_fits};

use protocol::serial;

// Whether the second number is 1 to 127 after the first.
fn follows(first: u32, second: u32) -> bool
    ensures { result ≡ follows first second }
{
    serial::difference(serial::difference(second, first), 1) < 127
}

// Each number is 1 to 127 after the one before.
fn ascend(numbers: &[u32]) -> bool
    ensures { result ≡ neighbours numbers.now }
{
    let mut fit = true;
    for i in 1..numbers.len() {
        fit = fit & follows(numbers[i - 1], numbers[i]);
    }
    fit
}

// The first and the last waiting number are less than 128 after `expected`, and the first is not `expected` while fewer than
// 128 are ready.
fn ends_fit(first: u32, last: u32, expected: u32, ready: usize) -> bool
    ensures { result ≡ ends_fit first last expected ready }
{
    let near = serial::difference(first, expected);
    let far = serial::difference(last, expected);
    (near < 128) & (far < 128) & !((near == 0) & (ready < 128))
}

// Waiting numbers ascend from `expected`, less than 128 after it, and not from it on while fewer than 128 are ready.
pub fn ahead_fits(numbers: &[u32], expected: u32, ready: usize) -> bool
    ensures { result ≡ ahead_fits expected ready numbers.now }
{
    if numbers.is_empty() {
        return true;
    }
    ends_fit(numbers[0], numbers[numbers.len() - 1], expected, ready) & ascend(numbers)
}
