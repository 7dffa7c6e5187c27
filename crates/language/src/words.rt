// The words of a line: what stands between spaces.
ghost use Rattle.language.specs.Words.{First, Words, space, held};
ghost use Rattle.std.specs.Prelude.{◌≡◌, ℕ, ◌<◌, ◌≤◌, not, length, IfOk, ◌==◌, slice_index};

use crate::memory::Made;
use std::alloc::Global;

// How many bytes at the front are spaces, or how many are not. By bytes, as words are defined, where
// `trim_start_matches` and `find` promise what they do by characters. A flag, since a closure would
// take its test by a clause of its own: no plainer.
fn front(line: &str, spaces: bool) -> usize
    ensures within { result ≤ length line.now }
    ensures alike { (k : ℕ) → k < result → (slice_index line.now k == space) ≡ spaces }
    ensures stops { result < length line.now → (slice_index line.now result == space) ≡ not spaces }
{
    line.bytes()
        .position(|b| (b == b' ') != spaces)
        .unwrap_or(line.len())
}

// The first word of a line and what follows it; the word is empty where the line is blank. Takes a
// step for each byte up to the word's end.
pub fn first_word(line: &str) -> (&str, &str)
    ensures { First line.now result.0.now result.1.now }
{
    let start = front(line, true);
    let (_, begun) = line.split_at(start);
    let end = front(begun, false);
    begun.split_at(end)
}

// The words of a line, in order. Takes a step for each byte.
pub fn words<'a>(heap: Global, line: &'a str) -> Made<Vec<&'a str>>
    ensures { IfOk result (λ v. Words line.now (held v)) }
{
    let mut found = Vec::new(heap);
    let mut rest = line;
    loop {
        let (word, after) = first_word(rest);
        if word.is_empty() {
            return Ok(found);
        }
        found.push(word)?;
        rest = after;
    }
}
