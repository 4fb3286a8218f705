//! Lines of text: their words, and the numbers among these.

ghost use Rattle.std.specs.Prelude.{◌≡◌, ◌==◌, ◌<◌, ◌≤◌, not, ◌^◌, [], ◌∷◌, length};
ghost use Rattle.std.specs.Prelude.{Some, None, Ok, Err, MatchOption, MatchResult, IfSome, IfOk};
ghost use Rattle.std.specs.List.{position_or_len, before_first, after_first};
ghost use Rattle.rbc_model.specs.declared.refusals.LineFault.TheVariants.{Words};
ghost use Rattle.rbc_model.specs.RequestText.{request_words, number_at};
ghost use Rattle.rbc_model.specs.Results.{is_from_to, allowed_value};
ghost use Rattle.rbc_model.specs.SessionText.{only_word};
ghost use Rattle.rbc_model.specs.Words.{without_return, words_of, is_blank, is_text, number_in, integer_in};

use rbc_model::LineFault;
use rbc_model::limits::LONGEST_LINE;

/// A line without the carriage return at its end, if it has one.
pub fn without_return(line: &[u8]) -> &[u8]
    ensures { result.now ≡ without_return line.now }
{
    match line.split_last() {
        Some((b'\r', front)) => front,
        _ => line,
    }
}

/// How many spaces a text begins with.
fn leading_spaces(text: &[u8]) -> usize
    ensures value { result ≡ position_or_len (λ byte. not (byte == 32)) text.now }
    ensures bound { result ≤ length text.now }
{
    text.iter()
        .position(|byte| *byte != b' ')
        .unwrap_or(text.len())
}

/// How many bytes stand before the first one that is the mark: all of them, if there is none.
fn length_before(text: &[u8], mark: u8) -> usize
    ensures value { result ≡ position_or_len (λ byte. byte == mark) text.now }
    ensures bound { result ≤ length text.now }
{
    text.iter()
        .position(|byte| *byte == mark)
        .unwrap_or(text.len())
}

/// The first word of a text, and what follows it. Words stand between spaces.
pub fn next_word(text: &[u8]) -> Option<(&[u8], &[u8])>
    ensures words { MatchOption result (words_of text.now ≡ [])
        (λ found. words_of text.now ≡ found.0.now ∷ words_of found.1.now) }
    ensures shorter { IfSome result (λ found. length found.1.now < length text.now) }
{
    let words = &text[leading_spaces(text)..];
    if words.is_empty() {
        return None;
    }
    Some(words.split_at(length_before(words, b' ')))
}

/// The first of the words that are left, and those behind it.
///
/// # Errors
///
/// `Words`, where none is left.
pub fn take_word(words: &[u8]) -> Result<(&[u8], &[u8]), LineFault>
    ensures { MatchResult result (λ found. words_of words.now ≡ found.0.now ∷ words_of found.1.now)
        (λ fault. (fault ≡ Words) × (words_of words.now ≡ [])) }
{
    next_word(words).ok_or(LineFault::Words)
}

/// The only word that is left.
///
/// # Errors
///
/// `Words`, where none is left or more than one.
pub fn only_word(words: &[u8]) -> Result<&[u8], LineFault>
    ensures { MatchResult result (λ word. words_of words.now ≡ word.now ∷ [])
        (λ fault. only_word (words_of words.now) ≡ Err fault) }
{
    let (word, rest) = take_word(words)?;
    match next_word(rest) {
        None => Ok(word),
        Some(_) => Err(LineFault::Words),
    }
}

/// Whether a line has no word, or its first word begins with `#`.
pub fn is_blank(text: &[u8]) -> bool
    ensures { result ≡ is_blank (words_of text.now) }
{
    match text.get(leading_spaces(text)) {
        Some(first) => *first == b'#',
        None => true,
    }
}

/// How many bytes a processor looks at together.
const AT_ONCE: usize = 8;

/// Whether each byte is a space or a visible character of ASCII.
pub fn is_text(text: &[u8]) -> bool
    ensures { result ≡ is_text text.now }
{
    if text.len() < AT_ONCE {
        return are_visible(text);
    }
    // The last bytes are looked at together too, some of them a second time: none is left to be looked at alone.
    let whole = text.len() / AT_ONCE * AT_ONCE;
    are_visible(&text[..whole]) & are_visible(&text[text.len() - AT_ONCE..])
}

/// Whether each byte is a space or a visible character of ASCII.
#[inline(always)]
fn are_visible(text: &[u8]) -> bool
    ensures { result ≡ is_text text.now }
{
    // There is no way out of the loop before its end: a processor takes several bytes at once.
    let mut is_text = true;
    for byte in text {
        is_text = is_text & (*byte >= 0x20) & (*byte <= 0x7e);
    }
    is_text
}

/// The text of a line, without its line feed, in which a request stands: none, if the line is blank or a comment,
/// which may hold any bytes.
///
/// # Errors
///
/// - `Overlong`: the line has more than 4,096 bytes, a carriage return counted.
/// - `NotText`: a byte is no space and no visible character of ASCII.
pub fn request_text(line: &[u8]) -> Result<Option<&[u8]>, LineFault>
    ensures { MatchResult result
        (λ found. MatchOption found (request_words line.now ≡ Ok None)
        (λ text. request_words line.now ≡ Ok (Some (words_of text.now))))
        (λ fault. request_words line.now ≡ Err fault) }
{
    if line.len() > LONGEST_LINE {
        return Err(LineFault::Overlong);
    }
    let text = without_return(line);
    if is_blank(text) {
        return Ok(None);
    }
    if !is_text(text) {
        return Err(LineFault::NotText);
    }
    Ok(Some(text))
}

/// What stands before the first mark in a word, and what behind it: nothing, if there is no mark.
pub fn around(word: &[u8], mark: u8) -> (&[u8], &[u8])
    ensures before { result.0.now ≡ before_first (λ byte. byte == mark) word.now }
    ensures after { result.1.now ≡ after_first (λ byte. byte == mark) word.now }
{
    let place = length_before(word, mark);
    if place == word.len() {
        return (word, &[]);
    }
    (&word[..place], &word[place + 1..])
}

/// The number that a word of one to ten digits writes.
pub fn number(word: &[u8]) -> Option<u64>
    ensures value { result ≡ number_in word.now }
    ensures bound { IfSome result (λ value. value < 10 ^ 10) }
{
    if word.is_empty() || word.len() > 10 {
        return None;
    }
    let mut value = 0;
    for byte in word {
        if !byte.is_ascii_digit() {
            return None;
        }
        value = value * 10 + u64::from(*byte - b'0');
    }
    Some(value)
}

/// The whole number that a word writes: one to ten digits, perhaps with a `-` before them.
pub fn integer(word: &[u8]) -> Option<i64>
    ensures { result ≡ integer_in word.now }
{
    match word.split_first() {
        Some((b'-', digits)) => number(digits).map(|value| -(value as i64)),
        _ => number(word).map(|value| value as i64),
    }
}

/// The number that a word writes, if it lies in this range, both ends allowed.
///
/// # Errors
///
/// The fault given, where it is no number or lies elsewhere.
pub fn number_from_to(word: &[u8], low: u32, high: u32, fault: LineFault) -> Result<u32, LineFault>
    ensures value { result ≡ allowed_value (is_from_to low high) fault (number_in word.now) }
    ensures range { IfOk result (λ value. (low ≤ value) × (value ≤ high)) }
{
    match number(word) {
        Some(value) if value >= u64::from(low) && value <= u64::from(high) => Ok(value as u32),
        _ => Err(fault),
    }
}

/// The number that word `index` writes, if it lies in this range, both ends allowed.
///
/// # Errors
///
/// `Number`, where it is no number or lies elsewhere.
pub fn number_at(index: usize, word: &[u8], low: u32, high: u32) -> Result<u32, LineFault>
    ensures value { result ≡ number_at index low high word.now }
    ensures range { IfOk result (λ value. (low ≤ value) × (value ≤ high)) }
{
    number_from_to(word, low, high, LineFault::Number(index))
}
