//! The words of the command line.
ghost use Rattle.std.specs.Prelude.{◌≡◌, ◌&&◌, ◌+◌, ◌<◌, ◌∷◌, ◌++◌, IfOk, length, map, string_bytes};
ghost use Rattle.command_line.specs.Words.{has_value_at, is_negative, joined};

use std::alloc::{AllocError, Global};

/// The option whose value may begin with a minus sign.
const POSITION: &str = "--position";

/// Returns the words, but `--position` and a word after it that begins with a minus sign and a digit
/// are one, joined by a `=`: else that word would be read as an option.
pub fn joined_words(alloc: Global, words: &[String]) -> Result<Vec<String>, AllocError>
    ensures { IfOk result (λ r. map string_bytes r.items ≡ joined (map string_bytes words.now)) }
{
    let mut joined = Vec::new(alloc);
    let mut i = 0;
    while i < words.len() {
        if has_value_at(words, i) {
            joined.push(with_value(&words[i], words[i + 1].as_str())?)?;
            i += 2;
        } else {
            joined.push(words[i].clone()?)?;
            i += 1;
        }
    }
    Ok(joined)
}

/// Returns whether the word at an index is `--position`, and one that begins with a minus sign and a
/// digit follows.
fn has_value_at(words: &[String], i: usize) -> bool
    requires { i < length words.now }
    ensures { result ≡ has_value_at (map string_bytes words.now) i }
{
    i + 1 < words.len() && words[i].as_str() == POSITION && is_negative(words[i + 1].as_str())
}

/// Returns an option and its value, joined by a `=`.
fn with_value(option: &String, value: &str) -> Result<String, AllocError>
    ensures { IfOk result (λ r. string_bytes r ≡ string_bytes option.now ++ 0x3D ∷ value.now) }
{
    let mut word = option.clone()?;
    word.push_str("=")?;
    word.push_str(value)?;
    Ok(word)
}

/// Returns whether a word begins with a minus sign and a digit.
fn is_negative(word: &str) -> bool
    ensures { result ≡ is_negative word.now }
{
    let bytes = word.as_bytes();
    bytes.len() > 1 && bytes[0] == b'-' && bytes[1].is_ascii_digit()
}
