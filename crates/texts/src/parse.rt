// A line of decimal numbers, parted by spaces: words, and after `/` bytes.
ghost use Rattle.std.specs.Prelude.{◌<◌, ◌≤◌, length, IfSome};

// The number of a word: none where it holds anything else than digits, or exceeds `greatest`.
fn number(word: &[u8], greatest: u64) -> Option<u64> {
    let mut value: u64 = 0;
    for c in word {
        let digit = char::from(*c).to_digit(10)?;
        value = value.checked_mul(10)?.checked_add(u64::from(digit))?;
    }
    (value <= greatest).then_some(value)
}

// How many numbers a part of a line has: none where it holds anything else, a number that is too great, or more than there is room for.
// Between two spaces stands an empty word, which has no number.
fn numbers(line: &[u8], greatest: u64, w: &mut [u64]) -> Option<usize>
    ensures { IfSome result (λ n. n ≤ length w.new) }
{
    let mut n = 0;
    for word in line.split(|b| *b == b' ') {
        if !word.is_empty() {
            *w.get_mut(n)? = number(word, greatest)?;
            n += 1;
        }
    }
    Some(n)
}

fn slash(line: &[u8]) -> Option<usize>
    ensures { IfSome result (λ n. n < length line.now) }
{
    line.iter().position(|b| *b == b'/')
}

// The words before `/`.
pub fn words(line: &[u8], w: &mut [u64]) -> Option<usize>
    ensures { IfSome result (λ n. n ≤ length w.new) }
{
    let end = slash(line).unwrap_or(line.len());
    numbers(&line[..end], u64::MAX, w)
}

// The bytes after `/`.
pub fn bytes(line: &[u8], b: &mut [u8]) -> Option<usize>
    ensures { IfSome result (λ n. n ≤ length b.new) }
{
    let Some(at) = slash(line) else {
        return Some(0);
    };
    let mut w = [0u64; 4096];
    let n = numbers(&line[at + 1..], 255, &mut w)?;
    if n > b.len() {
        return None;
    }
    for (byte, word) in b.iter_mut().zip(&w[..n]) {
        *byte = (*word % 256) as u8;
    }
    Some(n)
}
