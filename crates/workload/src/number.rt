// Numbers as words.
ghost use Rattle.std.specs.Prelude.{◌≡◌, ◌≤◌, ◌<◌, ◌+◌, [], ◌∷◌, ◌++◌, length, slice_index};
ghost use Rattle.std.specs.Char.{is_ascii_digit};
ghost use Rattle.std.specs.List.{list_all};
ghost use Rattle.std.specs.Option.{option_copied};
ghost use Rattle.workload.specs.Numerals.{is_numeral, number_of, numbers_of};
ghost use Rattle.workload.specs.Texts.{words_left};

use crate::words::split_word;
use std::marker::Model;
use std::str;

/// At most seven numbers: the arguments of a line.
#[derive(Debug, Drop)]
pub struct Numbers {
    values: [u64; 7],
    len: usize,
}

impl Model for Numbers {
    ghost use Rattle.std.specs.Prelude.{◌≡◌, ◌≤◌, ℕ, List, length, take};

    ghost Value = { List ℕ };

    ghost view = { λ numbers. take numbers.len numbers.values };

    ghost invariant = { λ numbers. (numbers.len ≤ 7) × (length numbers.values ≡ 7) };
}

impl Numbers {
    /// No numbers.
    pub fn none() -> Numbers
        ensures { result ≡ [] }
    {
        Numbers {
            values: [0; 7],
            len: 0,
        }
    }

    /// Adds a number at the end.
    pub fn push(&mut self, number: u64)
        requires { length self.old < 7 }
        ensures { self.new ≡ self.old ++ number ∷ [] }
    {
        self.values[self.len] = number;
        self.len += 1;
    }

    /// How many numbers there are.
    pub fn len(&self) -> usize
        ensures { result ≡ length self.now }
    {
        self.len
    }

    /// The number at a place, or 0 past the end.
    pub fn at(&self, place: usize) -> u64
        ensures { result ≡ slice_index self.now place }
    {
        if place < self.len {
            self.values[place]
        } else {
            0
        }
    }
}

/// The number that a word stands for: decimal digits without leading zeros, at most `u64::MAX`.
pub fn read_number(word: &[u8]) -> Option<u64>
    ensures { result ≡ number_of word.now }
{
    if !is_numeral(word) {
        return None;
    }
    match str::from_utf8(word) {
        Ok(text) => text.parse().ok(),
        Err(_) => None,
    }
}

/// The numbers of the words that are left of a line, or `None` where one is no number.
pub fn read_numbers(left: Option<&[u8]>) -> Option<Numbers>
    requires { length (words_left (option_copied left)) ≤ 7 }
    ensures { result ≡ numbers_of (words_left (option_copied left.entry)) }
{
    let mut numbers = Numbers::none();
    let mut left = left;
    while let Some(rest) = left {
        let (word, after) = split_word(rest);
        numbers.push(read_number(word)?);
        left = after;
    }
    Some(numbers)
}

fn is_numeral(word: &[u8]) -> bool
    ensures { result ≡ is_numeral word.now }
{
    !word.is_empty() && is_digits(word) && (word[0] != b'0' || word.len() == 1)
}

fn is_digits(word: &[u8]) -> bool
    ensures { result ≡ list_all is_ascii_digit word.now }
{
    word.iter().all(|byte| byte.is_ascii_digit())
}
