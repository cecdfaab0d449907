//! The words that the program is called with.
ghost use Rattle.std.specs.Prelude.{◌≡◌, ℕ, IfSome, None};
ghost use Rattle.controller.specs.Words.{texts, Calls};

use program_words::number_of;

/// The greatest number that a node can have.
const LAST_NODE: u64 = 15;

/// The number of the node that the words are, where they are one.
pub(crate) fn node_of(words: &[String]) -> Option<u8>
    ensures found { IfSome result (λ id. Calls (texts words.now) id) }
    ensures none { result ≡ None → (id : ℕ) → Calls (texts words.now) id → ⊥ }
{
    if words.len() != 1 {
        return None;
    }
    let Some(number) = number_of(words[0].as_str()) else {
        return None;
    };
    if number > LAST_NODE {
        return None;
    }
    Some(number as u8)
}
