//! Lines, words, fields and numbers of a text.

ghost use Rattle.std.specs.Prelude.{◌≡◌, ◌≢◌, ◌<◌, ◌≤◌, ℕ, [], ◌∷◌, true, false, length, slice_index, MatchOption, IfSome, IfOk};
ghost use Rattle.roster_text.specs.Lines.{lines_of, words_of, fields_of, parts, is_digit, number_of};
ghost use Rattle.roster_text.specs.Lent.{texts};

use std::alloc::{AllocError, Global};

/// The most digits of a number.
const MAX_DIGITS: usize = 10;

/// The first line of a text, and what follows its newline; `None` where the text is empty.
pub fn split_line(text: &[u8]) -> Option<(&[u8], &[u8])>
    ensures lines { MatchOption result (lines_of text.now ≡ []) (λ r. lines_of text.now ≡ r.0.now ∷ lines_of r.1.now) }
    ensures shorter { IfSome result (λ r. length r.1.now < length text.now) }
{
    if text.is_empty() {
        return None;
    }
    let at = len_before(text, b'\n');
    if at == text.len() {
        return Some((text, &[]));
    }
    let (line, _) = text.split_at(at);
    let (_, rest) = text.split_at(at + 1);
    Some((line, rest))
}

/// How many octets stand before the first of this kind.
fn len_before(text: &[u8], stop: u8) -> usize
    ensures within { result ≤ length text.now }
    ensures before { (k : ℕ) → k < result → slice_index text.now k ≢ stop }
    ensures stop { result < length text.now → slice_index text.now result ≡ stop }
{
    for (i, octet) in text.iter().enumerate() {
        if *octet == stop {
            return i;
        }
    }
    text.len()
}

/// The words of a line, which space, tab and carriage return part.
///
/// # Errors
///
/// `AllocError` where there was no memory for the list.
#[tactic(auto, using(crate::proofs::Splitting::word_pushed, crate::proofs::Splitting::words_done))]
pub fn split_words(alloc: Global, line: &[u8]) -> Result<Vec<&[u8]>, AllocError>
    ensures { IfOk result (λ v. texts v.items ≡ words_of line.now) }
{
    let mut words = Vec::new(alloc);
    let mut rest = line;
    while let Some((word, after)) = split_word(rest) {
        words.push(word)?;
        rest = after;
    }
    Ok(words)
}

/// The first word of a line, and what follows it; `None` where there is no word.
fn split_word(line: &[u8]) -> Option<(&[u8], &[u8])>
    ensures words { MatchOption result (words_of line.now ≡ []) (λ r. words_of line.now ≡ r.0.now ∷ words_of r.1.now) }
    ensures shorter { IfSome result (λ r. length r.1.now < length line.now) }
{
    let (_, from) = line.split_at(gap_len(line));
    if from.is_empty() {
        return None;
    }
    Some(from.split_at(word_len(from)))
}

/// How many octets of a line stand before its first word.
fn gap_len(line: &[u8]) -> usize
    ensures within { result ≤ length line.now }
    ensures gap { (k : ℕ) → k < result → parts (slice_index line.now k) ≡ true }
    ensures word { result < length line.now → parts (slice_index line.now result) ≡ false }
{
    for (i, octet) in line.iter().enumerate() {
        if !parts_words(*octet) {
            return i;
        }
    }
    line.len()
}

/// How many octets the word has that a text begins with.
fn word_len(text: &[u8]) -> usize
    ensures within { result ≤ length text.now }
    ensures word { (k : ℕ) → k < result → parts (slice_index text.now k) ≡ false }
    ensures gap { result < length text.now → parts (slice_index text.now result) ≡ true }
{
    for (i, octet) in text.iter().enumerate() {
        if parts_words(*octet) {
            return i;
        }
    }
    text.len()
}

/// The first field of a word, and what follows the octet that parts it from the others; `None` where there is no such octet.
pub fn split_field(word: &[u8], stop: u8) -> Option<(&[u8], &[u8])>
    ensures { MatchOption result (fields_of stop word.now ≡ word.now ∷ []) (λ r. fields_of stop word.now ≡ r.0.now ∷ fields_of stop r.1.now) }
{
    let at = len_before(word, stop);
    if at == word.len() {
        return None;
    }
    let (field, _) = word.split_at(at);
    let (_, rest) = word.split_at(at + 1);
    Some((field, rest))
}

/// Whether an octet parts words: space, tab and carriage return do.
fn parts_words(octet: u8) -> bool
    ensures { result ≡ parts octet }
{
    octet == b' ' || octet == b'\t' || octet == b'\r'
}

/// The number that a word spells in 1 to 10 decimal digits, if it is at most `greatest`.
pub fn number(word: &[u8], greatest: u32) -> Option<u32>
    ensures value { result ≡ number_of greatest word.now }
    ensures bound { IfSome result (λ n. n ≤ greatest) }
{
    if word.is_empty() || word.len() > MAX_DIGITS {
        return None;
    }
    let mut n: u32 = 0;
    for octet in word {
        if !is_decimal(*octet) {
            return None;
        }
        let next = u64::from(n) * 10 + u64::from(*octet - b'0');
        if next > u64::from(greatest) {
            return None;
        }
        n = next as u32;
    }
    Some(n)
}

/// Whether an octet is a decimal digit.
fn is_decimal(octet: u8) -> bool
    ensures { result ≡ is_digit octet }
{
    octet >= b'0' && octet <= b'9'
}
