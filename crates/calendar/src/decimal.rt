// Numbers in decimal, in a given number of digits.
ghost use Rattle.calendar.specs.Decimals.{decimal, Spells};
ghost use Rattle.std.specs.Prelude.{◌≡◌, ℕ, ◌^◌, ◌<◌, ◌≤◌, MatchOption, slice_index};

// The byte at `i` of `n` written in `count` digits: absent past the last. Takes `count - i` steps.
pub fn digit(n: u32, count: usize, i: usize) -> Option<u8>
    ensures { MatchOption result (count ≤ i) (λ b. (i < count) × (b ≡ slice_index (decimal count n) i)) }
{
    if i >= count {
        return None;
    }
    // Counted by hand: with a `for` here the compiler works out a stamp's parts for each byte of its text anew.
    let mut rest = n;
    let mut left = count;
    while left > i + 1 {
        rest /= 10;
        left -= 1;
    }
    Some(b'0' + (rest % 10) as u8)
}

// The number that the bytes spell: none where one of them is no digit, or where the number does not
// fit 32 bits. Takes a step for each byte.
pub fn number(bytes: &[u8]) -> Option<u32>
    ensures { MatchOption result ((n : ℕ) → n < 2 ^ 32 → Spells bytes.now n → ⊥) (λ n. Spells bytes.now n) }
{
    let mut n = 0u32;
    for b in bytes {
        let digit = match *b {
            b'0'..=b'9' => u32::from(*b - b'0'),
            _ => return None,
        };
        n = n.checked_mul(10)?.checked_add(digit)?;
    }
    Some(n)
}
