//! The numbers of a text, one after another or a line at a time.
ghost use Rattle.std.specs.Prelude.{◌≡◌, ◌≤◌, length, drop, position};
ghost use Rattle.words.specs.Words.{no_blank, digits_from, next_word, number_of, read_of};
ghost use Rattle.words.specs.Lines.{fill_from, filled, line_from, line_of, Fits};

/// What is no number or no line.
#[derive(Clone, Copy, Debug, PartialEq, Eq)]
pub struct Fault {
    /// The place of the first byte that is neither a digit nor a blank, or that takes a number past 64 bits; the text's end
    /// where it breaks off within a line; the place behind a count of numbers that have no room.
    pub place: usize,
}

/// A number as an index: both have 64 bits.
// stays: docs/API.md names it (words:index).
pub fn index(n: u64) -> usize
    ensures { result ≡ n }
{
    n as usize
}

/// How many blanks the text begins with. None where it has nothing else.
fn blanks(text: &[u8]) -> Option<usize>
    ensures { result ≡ position no_blank text.now }
{
    text.iter().position(|c| 32 < *c)
}

/// The number whose digits stand from `at` on, and the place behind it.
fn digits(text: &[u8], at: usize) -> Result<(u64, usize), Fault>
    requires { at ≤ length text.now }
    ensures { number_of result ≡ digits_from (drop at text.now) at 0 }
{
    let mut value = 0u64;
    for i in at..text.len() {
        let c = text[i];
        if c <= 32 {
            return Ok((value, i));
        }
        if !c.is_ascii_digit() {
            return Err(Fault { place: i });
        }
        let Some(tens) = value.checked_mul(10) else {
            return Err(Fault { place: i });
        };
        let Some(more) = tens.checked_add(u64::from(c - b'0')) else {
            return Err(Fault { place: i });
        };
        value = more;
    }
    Ok((value, text.len()))
}

/// The number that comes next from `at` on, and the place behind it. None where only blanks follow.
pub fn next_word(text: &[u8], at: usize) -> Result<Option<(u64, usize)>, Fault>
    ensures { read_of result ≡ next_word text.now at }
{
    if text.len() < at {
        return Ok(None);
    }
    let Some(blanks) = blanks(&text[at..]) else {
        return Ok(None);
    };
    Ok(Some(digits(text, at + blanks)?))
}

/// Puts the next n numbers into the first slots. Answers the place behind them.
fn fill(text: &[u8], at: usize, n: usize, out: &mut [u64]) -> Result<usize, Fault>
    requires { n ≤ length out.old }
    ensures { (filled n result, out.new) ≡ fill_from text.now n at 0 out.old }
{
    let mut place = at;
    for i in 0..n {
        let Some((number, next)) = next_word(text, place)? else {
            return Err(Fault { place: text.len() });
        };
        out[i] = number;
        place = next;
    }
    Ok(place)
}

/// The line that comes next from `at` on: a count, then so many numbers, which go into the first slots. Answers how many,
/// and the place behind the line. None where only blanks follow.
pub fn next_line(text: &[u8], at: usize, out: &mut [u64]) -> Result<Option<(usize, usize)>, Fault>
    ensures line { (line_of result, out.new) ≡ line_from text.now at out.old }
    ensures fits { Fits result out.new }
{
    let Some((count, place)) = next_word(text, at)? else {
        return Ok(None);
    };
    let n = index(count);
    if out.len() < n {
        return Err(Fault { place });
    }
    let end = fill(text, place, n, out)?;
    Ok(Some((n, end)))
}
