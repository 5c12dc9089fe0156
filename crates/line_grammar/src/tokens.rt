//! The smallest parts of a line: fixed words, numbers, names and places. The longest reading is the
//! right one, since only a space or nothing may follow a number or a name.
ghost use Rattle.std.specs.Prelude.{◌≡◌, ◌≤◌, ◌<◌, ◌^◌, length, IfOk, IfErr, string_bytes, true};
ghost use Rattle.std.specs.List.{AllByRecursion};
ghost use Rattle.line_grammar.specs.declared.fault.ReadError.TheVariants.{NoMemory};
ghost use Rattle.line_grammar.specs.Fitting.{is_letter, is_digit, is_name_byte};
ghost use Rattle.line_grammar.specs.Reading.{Gives, literal_at, end_at, test_of, run, value_from};
ghost use Rattle.line_grammar.specs.Reading.{number_at, name_at, point_at, led_point_at};
ghost use Rattle.line_grammar.specs.Reading.{led_name_at};

use crate::command::At;
use crate::fault::ReadError;
use crate::name::Name;
use std::alloc::Global;

/// The line behind the word that it begins with.
pub(crate) fn literal<'a>(word: &[u8], line: &'a [u8]) -> Result<&'a [u8], ReadError>
    ensures { Gives (λ x. x.now) result (literal_at word.now line.now) }
{
    for (i, expected) in word.iter().enumerate() {
        if i >= line.len() {
            return Err(ReadError::Stopped { left: 0 });
        }
        if line[i] != *expected {
            return Err(ReadError::Stopped {
                left: line.len() - i,
            });
        }
    }
    let (_, rest) = line.split_at(word.len());
    Ok(rest)
}

/// Nothing is left.
#[tactic(auto, unfolding(crate::specs::Reading::end_at))]
pub(crate) fn end(rest: &[u8]) -> Result<(), ReadError>
    ensures { Gives (λ x. x) result (end_at rest.now) }
{
    match rest {
        [] => Ok(()),
        [_, ..] => Err(ReadError::Stopped { left: rest.len() }),
    }
}

/// Whether the byte is one of a to z.
pub(crate) fn letter(b: u8) -> bool
    ensures { result ≡ is_letter b }
{
    b >= b'a' && b <= b'z'
}

fn digit(b: u8) -> bool
    ensures { result ≡ is_digit b }
{
    b >= b'0' && b <= b'9'
}

fn name_byte(b: u8) -> bool
    ensures { result ≡ is_name_byte b }
{
    letter(b) || digit(b) || b == b'_'
}

// What the bytes of a token may be.
#[derive(Clone, Copy)]
pub enum Alphabet {
    Digit,
    NameByte,
}

fn is_of(alphabet: Alphabet, b: u8) -> bool
    ensures { result ≡ test_of alphabet b }
{
    match alphabet {
        Alphabet::Digit => digit(b),
        Alphabet::NameByte => name_byte(b),
    }
}

// How many bytes from the front are of the alphabet, `most` at most.
fn run_of(alphabet: Alphabet, most: usize, line: &[u8]) -> usize
    ensures run { result ≡ run (test_of alphabet) most line.now }
    ensures within { result ≤ length line.now }
{
    for (i, b) in line.iter().enumerate() {
        if i >= most {
            return i;
        }
        if !is_of(alphabet, *b) {
            return i;
        }
    }
    line.len()
}

// How many digits are at the front, 19 at most.
fn digits(line: &[u8]) -> usize
    ensures run { result ≡ run is_digit 19 line.now }
    ensures within { result ≤ length line.now }
{
    run_of(Alphabet::Digit, 19, line)
}

/// How many bytes of a name are at the front, 32 at most.
pub(crate) fn name_bytes(line: &[u8]) -> usize
    ensures run { result ≡ run is_name_byte 32 line.now }
    ensures within { result ≤ length line.now }
{
    run_of(Alphabet::NameByte, 32, line)
}

// The number that at most 19 digits stand for.
fn value_of(digits: &[u8]) -> u64
    requires digits { AllByRecursion (λ d. is_digit d ≡ true) digits.now }
    requires fits { value_from 0 digits.now < 2 ^ 64 }
    ensures { result ≡ value_from 0 digits.now }
{
    let mut value = 0;
    for d in digits {
        value = 10 * value + u64::from(*d - b'0');
    }
    value
}

/// The number at the front.
#[tactic(auto, unfolding(crate::specs::Reading::number_at))]
pub(crate) fn number(line: &[u8]) -> Result<(u64, &[u8]), ReadError>
    ensures { Gives (λ x. (x.0, x.1.now)) result (number_at line.now) }
{
    match line {
        [] => Err(ReadError::Stopped { left: 0 }),
        [b'0', rest @ ..] => Ok((0, rest)),
        [b'1'..=b'9', ..] => {
            let (digits, rest) = line.split_at(digits(line));
            Ok((value_of(digits), rest))
        }
        [_, ..] => Err(ReadError::Stopped { left: line.len() }),
    }
}

/// The place at the front.
#[tactic(auto, unfolding(crate::specs::Reading::point_at))]
pub(crate) fn point(line: &[u8]) -> Result<(At, &[u8]), ReadError>
    ensures { Gives (λ x. (x.0, x.1.now)) result (point_at line.now) }
{
    let (x, rest) = number(line)?;
    let rest = literal(b" ", rest)?;
    let (y, rest) = number(rest)?;
    Ok((At { x, y }, rest))
}

/// A place behind a space.
#[tactic(auto, unfolding(crate::specs::Reading::led_point_at))]
pub(crate) fn led_point(line: &[u8]) -> Result<(At, &[u8]), ReadError>
    ensures { Gives (λ x. (x.0, x.1.now)) result (led_point_at line.now) }
{
    let rest = literal(b" ", line)?;
    point(rest)
}

// The text of these bytes.
fn text_of_name(alloc: Global, bytes: &[u8]) -> Result<String, ReadError>
    requires { AllByRecursion (λ b. is_name_byte b ≡ true) bytes.now }
    ensures text { IfOk result (λ s. string_bytes s ≡ bytes.now) }
    ensures cause { IfErr result (λ e. e ≡ NoMemory) }
{
    let mut text = String::new(alloc);
    for b in bytes {
        text.push(char::from(*b))?;
    }
    Ok(text)
}

/// The name at the front.
#[tactic(auto, unfolding(crate::specs::Reading::name_at))]
pub(crate) fn name(alloc: Global, line: &[u8]) -> Result<(Name, &[u8]), ReadError>
    ensures { Gives (λ x. (x.0, x.1.now)) result (name_at line.now) }
{
    match line {
        [] => Err(ReadError::Stopped { left: 0 }),
        [first, ..] => {
            if !letter(*first) {
                return Err(ReadError::Stopped { left: line.len() });
            }
            let (bytes, rest) = line.split_at(name_bytes(line));
            let text = text_of_name(alloc, bytes)?;
            Ok((Name::new(text), rest))
        }
    }
}

/// A name behind a space.
#[tactic(auto, unfolding(crate::specs::Reading::led_name_at))]
pub(crate) fn led_name(alloc: Global, line: &[u8]) -> Result<(Name, &[u8]), ReadError>
    ensures { Gives (λ x. (x.0, x.1.now)) result (led_name_at line.now) }
{
    let rest = literal(b" ", line)?;
    name(alloc, rest)
}
