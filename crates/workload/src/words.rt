// Lines of a text, and words of a line.
ghost use Rattle.std.specs.Prelude.{◌≡◌, ◌==◌, ◌<◌, ◌^◌, ◌∷◌, [], IfSome, MatchOption, count_by, length, position};
ghost use Rattle.std.specs.Char.{is_ascii_graphic};
ghost use Rattle.std.specs.List.{list_all, slice_split};
ghost use Rattle.std.specs.Option.{option_copied};
ghost use Rattle.workload.specs.Texts.{is_shaped, is_word, lines_of, words_of, words_left};

const LINE_END: u8 = b'\n';

const SPACE: u8 = b' ';

/// The first line of a text and what stands behind it, or `None` where the text is empty.
pub fn split_line(text: &[u8]) -> Option<(&[u8], &[u8])>
    ensures lines { MatchOption result (lines_of text.now ≡ []) (λ parts. lines_of text.now ≡ parts.0.now ∷ lines_of parts.1.now) }
    ensures shorter { IfSome result (λ parts. length parts.1.now < length text.now) }
{
    if text.is_empty() {
        return None;
    }
    match cut(text, LINE_END) {
        Some((line, rest)) => Some((line, rest)),
        None => Some((text, &[])),
    }
}

/// The first word of a line, and what stands behind its space; it is `None` where the line has no
/// second word.
pub fn split_word(line: &[u8]) -> (&[u8], Option<&[u8]>)
    ensures words { words_of line.now ≡ result.0.now ∷ words_left (option_copied result.1) }
{
    match cut(line, SPACE) {
        Some((word, rest)) => (word, Some(rest)),
        None => (line, None),
    }
}

/// The number of words that are left of a line.
#[tactic(auto, using(crate::proofs::Parts::words_counted))]
pub fn count_words(left: Option<&[u8]>) -> usize
    ensures { result ≡ length (words_left (option_copied left.entry)) }
{
    match left {
        Some(rest) => count_spaces(rest) + 1,
        None => 0,
    }
}

/// Whether a line has at least one word, one space between each two, and no empty word.
pub fn is_shaped(line: &[u8]) -> bool
    ensures { result ≡ is_shaped line.now }
{
    let mut rest = line;
    while let Some((word, after)) = cut(rest, SPACE) {
        if !is_word(word) {
            return false;
        }
        rest = after;
    }
    is_word(rest)
}

fn is_word(word: &[u8]) -> bool
    ensures { result ≡ is_word word.now }
{
    !word.is_empty() && is_visible(word)
}

fn is_visible(bytes: &[u8]) -> bool
    ensures { result ≡ list_all is_ascii_graphic bytes.now }
{
    bytes.iter().all(|byte| byte.is_ascii_graphic())
}

fn count_spaces(line: &[u8]) -> usize
    ensures spaces { result ≡ count_by (λ byte. byte == 32) line.now }
    ensures bound { result < 2 ^ 63 }
{
    line.iter().filter(|byte| **byte == SPACE).count()
}

// What stands before the first separator and what stands behind it, or `None` where there is none.
fn cut(bytes: &[u8], separator: u8) -> Option<(&[u8], &[u8])>
    ensures parts { MatchOption result
        (slice_split (λ byte. byte == separator) bytes.now ≡ bytes.now ∷ [])
        (λ parts. slice_split (λ byte. byte == separator) bytes.now ≡ parts.0.now ∷ slice_split (λ byte. byte == separator) parts.1.now) }
    ensures shorter { IfSome result (λ parts. length parts.1.now < length bytes.now) }
{
    match find(bytes, separator) {
        Some(at) => Some((&bytes[..at], &bytes[at + 1..])),
        None => None,
    }
}

fn find(bytes: &[u8], separator: u8) -> Option<usize>
    ensures { result ≡ position (λ byte. byte == separator) bytes.now }
{
    bytes.iter().position(|byte| *byte == separator)
}
