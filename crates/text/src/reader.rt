// Reading: from bytes to numbers, from numbers to sections, from sections to the whole text. The first fault from the left decides.
ghost use Rattle.std.specs.Prelude.{◌≡◌, [], ◌+◌, ◌≤◌, ◌<◌, length, take, drop, get_or, sum as list_sum};
ghost use Rattle.rules.specs.Lists.{sum};
ghost use Rattle.rules.specs.Text.{separator, blanks, word as word_of, number_at, numbers_at, section_at, whole_text};
ghost use Rattle.text.specs.Reading.{value_of, next_of, end_of, section_answer, Stored, ReadText, sections_of, most_numbers};

use rules::Refusal;

// Space, tab, LF or CR.
fn is_separator(b: u8) -> bool
    ensures { result ≡ separator b }
{
    // Stays: tried and slower. By `matches!` a text of 41 kB takes 105 us, in this form 71.
    (b == b' ') | (b == b'\t') | (b == b'\n') | (b == b'\r')
}

// How many separators stand first.
fn blank_len(text: &[u8]) -> usize
    ensures count { result ≡ blanks text.now }
    ensures within { result ≤ length text.now }
{
    text.iter()
        .position(|b| !is_separator(*b))
        .unwrap_or(text.len())
}

// How many bytes stand before the first separator, or before the end.
fn word_len(text: &[u8]) -> usize
    ensures count { result ≡ length (word_of text.now) }
    ensures within { result ≤ length text.now }
{
    text.iter()
        .position(|b| is_separator(*b))
        .unwrap_or(text.len())
}

// A word as a number: one to ten digits, whose number fits 32 bits.
// Stays: the new form is no plainer: `parse` takes a sign and more than ten digits, so the tests would stay.
fn value(word: &[u8]) -> Result<u32, Refusal>
    ensures { result ≡ value_of word.now }
{
    if 10 < word.len() {
        return Err(Refusal::BadText);
    }
    let mut n: u64 = 0;
    for b in word {
        if !b.is_ascii_digit() {
            return Err(Refusal::BadText);
        }
        n = 10 * n + u64::from(*b - b'0');
    }
    u32::try_from(n).or(Err(Refusal::BadText))
}

// What stands at a place of the text, after separators: a number and the place behind it, or nothing more.
fn read_number(text: &[u8], at: usize) -> Result<Option<(u32, usize)>, Refusal>
    ensures { result ≡ number_at text.now at }
{
    let rest = &text[at.min(text.len())..];
    let start = blank_len(rest);
    let rest = &rest[start..];
    let len = word_len(rest);
    if len == 0 {
        return Ok(None);
    }
    let n = value(&rest[..len])?;
    Ok(Some((n, at + start + len)))
}

// The next number, and the place behind it; where none stands the text is bad.
fn read_next(text: &[u8], at: usize) -> Result<(u32, usize), Refusal>
    ensures { result ≡ next_of (number_at text.now at) }
{
    read_number(text, at)?.ok_or(Refusal::BadText)
}

// As many numbers as `out` holds, and the place behind the last.
fn read_numbers(text: &[u8], at: usize, out: &mut [u32]) -> Result<usize, Refusal>
    ensures end { result ≡ end_of (numbers_at (length out.old) text.now at) }
    ensures stored { Stored (numbers_at (length out.old) text.now at) out.old out.new }
{
    let mut at = at;
    for x in out.iter_mut() {
        let (n, end) = read_next(text, at)?;
        *x = n;
        at = end;
    }
    Ok(at)
}

// A section: a count, at most the limit, and so many numbers at the front of `out`. The count, and the place behind.
fn read_section(
    text: &[u8],
    at: usize,
    limit: u32,
    out: &mut [u32],
) -> Result<(u32, usize), Refusal>
    requires { limit ≤ length out.old }
    ensures answer { result ≡ section_answer (section_at limit text.now at) }
    ensures stored { Stored (section_at limit text.now at) out.old out.new }
{
    let (count, at) = read_next(text, at)?;
    if limit < count {
        return Err(Refusal::OverLimit);
    }
    let end = read_numbers(text, at, &mut out[..count as usize])?;
    Ok((count, end))
}

// The most numbers that each section may have.
const LIMITS: [u32; 9] = [256, 256, 256, 1024, 256, 1024, 256, 256, 256];

// The nine sections: their counts, and their numbers one section behind the other.
pub fn read_text(text: &[u8], counts: &mut [u32], numbers: &mut [u32]) -> Result<(), Refusal>
    requires { (9 ≤ length counts.old) × (most_numbers ≤ length numbers.old) }
    ensures { ReadText (whole_text text.now) counts.old counts.new numbers.old numbers.new result }
{
    let mut at = 0;
    let mut used = 0;
    for (k, limit) in LIMITS.iter().enumerate() {
        let (count, end) = read_section(text, at, *limit, &mut numbers[used..])?;
        counts[k] = count;
        used += count as usize;
        at = end;
    }
    match read_number(text, at)? {
        None => Ok(()),
        Some(_) => Err(Refusal::BadText),
    }
}

// The sum of some counts.
fn total(counts: &[u32]) -> usize
    requires { list_sum counts.now ≤ most_numbers }
    ensures { result ≡ list_sum counts.now }
{
    counts.iter().sum::<u32>() as usize
}

// Section k, handed back as a part of the numbers.
pub fn section<'a>(counts: &[u32], numbers: &'a [u32], k: usize) -> &'a [u32]
    requires { (k < length counts.now) × (sum counts.now ≤ length numbers.now) × (sum counts.now ≤ most_numbers) }
    ensures { result.now ≡ get_or (sections_of counts.now numbers.now) k [] }
{
    let start = total(&counts[..k]);
    let end = start + counts[k] as usize;
    &numbers[start..end]
}
