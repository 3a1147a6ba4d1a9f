// Numbers among the words of a command line.
ghost use Rattle.std.specs.Prelude.{◌≡◌, None, Some, IfOk, IfSome, length, map, option_map};
ghost use Rattle.bddl_model.specs.Request as spec;

use itoa::Buffer;
use std::alloc::{AllocError, Global};
use std::str;

/// A number of 64 bits as it is written: no sign, and no zero before other digits.
pub fn number_in_word(word: &[u8]) -> Option<u64>
    ensures { result ≡ spec.number_in_word word.now }
{
    let Ok(text) = str::from_utf8(word) else {
        return None;
    };
    let Ok(number) = text.parse::<u64>() else {
        return None;
    };
    let mut digits = Buffer::new();
    if digits.format(number).as_bytes() == word {
        return Some(number);
    }
    None
}

/// Those of all words, if each is one.
pub fn numbers_in_words(alloc: Global, words: &[Vec<u8>]) -> Result<Option<Vec<u64>>, AllocError>
    ensures numbers { IfOk result (λ numbers. option_map (λ ns. ns.items) numbers ≡ spec.numbers_in_words (map (λ w. w.items) words.now)) }
    ensures count { IfOk result (λ numbers. IfSome numbers (λ ns. length ns.items ≡ length words.now)) }
{
    let mut numbers = Vec::with_capacity(alloc, words.len())?;
    'words: for word in words {
        match number_in_word(word) {
            Some(number) => numbers.push(number)?,
            None => return Ok(None),
        }
    }
    Ok(Some(numbers))
}
