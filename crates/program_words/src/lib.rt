//! The words with which a program is called, and the status with which it ends.
#![tactic(auto)]

ghost use Rattle.std.specs.Prelude.{◌≡◌, ℕ, ◌^◌, ◌<◌, drop, decimal, None, IfOk, IfSome};
ghost use Rattle.std.specs.Vec.Iter.{into_iter_items};

mod status;

use itoa::Buffer;
pub use status::Status;
use std::alloc::{AllocError, Global};
use std::env::Args;

/// The words after the first, which is the program's name.
///
/// # Errors
///
/// `AllocError` may come at any time: no word is left out.
pub fn words_after_name(alloc: Global, arguments: Args) -> Result<Vec<String>, AllocError>
    ensures { IfOk result (λ words. words.items ≡ drop 1 (into_iter_items arguments)) }
{
    let mut words = Vec::new(alloc);
    let mut rest = arguments;
    let _name = rest.next();
    while let Some(word) = rest.next() {
        words.push(word)?;
    }
    Ok(words)
}

/// The number below 2^64 that a word is in decimal, without a sign and without zeros before it.
pub fn number_of(word: &str) -> Option<u64>
    ensures found { IfSome result (λ n. word.now ≡ decimal n) }
    ensures small { IfSome result (λ n. n < 2 ^ 64) }
    ensures none { result ≡ None → (n : ℕ) → n < 2 ^ 64 → (word.now ≡ decimal n) → ⊥ }
{
    let Ok(number) = word.parse::<u64>() else {
        return None;
    };
    let mut buffer = Buffer::new();
    if buffer.format(number) == word {
        return Some(number);
    }
    None
}
