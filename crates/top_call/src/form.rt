//! The forms of words that the program knows.
ghost use Rattle.std.specs.Prelude.{◌≡◌, ℕ, ◌^◌, ◌<◌, ◌∷◌, [], ◌↔◌, IsTrue, IfSome, None, decimal};
ghost use Rattle.top_call.specs.Words.{texts, words_of, Calls};

use itoa::Buffer;

/// What is done with a scenario, and how much of its run is printed.
#[derive(Clone, Copy)]
pub enum Form {
    /// `replay`: of each period its line and the lines of every node.
    Replay,
    /// `replay trace`: the same, and after them a line for each frame that is delivered.
    Trace,
    /// `check`: of each period its line alone.
    Check,
}

impl Form {
    ghost use Rattle.top_call.specs.Run.{has_frames};

    /// Whether it prints the frames of a run.
    pub fn has_frames(self) -> bool
        ensures { result ≡ has_frames self }
    {
        match self {
            Form::Trace => true,
            Form::Replay | Form::Check => false,
        }
    }
}

/// What is read from the source, and what is done with it.
#[derive(Clone, Copy)]
pub enum Reading {
    /// A scenario is run, and printed in this form.
    Scenario(Form),
    /// `node I`: the log of this node, at most 15, is replayed, and what the node believed is
    /// printed.
    Log(u8),
}

/// What the program is called for.
#[derive(Clone, Copy)]
pub enum Command {
    /// An input is read.
    Read(Reading),
    /// `storm SEED`: the storm of this number is run, and its summary is printed. Nothing is read.
    Storm(u64),
}

/// Whether the words are this one alone.
fn is_one(words: &[String], text: &str) -> bool
    ensures { IsTrue result ↔ (texts words.now ≡ text.now ∷ []) }
{
    words.len() == 1 && words[0].as_str() == text
}

/// Whether the words are these two.
fn are_two(words: &[String], first: &str, second: &str) -> bool
    ensures { IsTrue result ↔ (texts words.now ≡ first.now ∷ second.now ∷ []) }
{
    if words.len() != 2 {
        return false;
    }
    words[0].as_str() == first && words[1].as_str() == second
}

/// The number below 2^64 that a word is in decimal, without a sign and without zeros before it.
fn number_of(word: &str) -> Option<u64>
    ensures found { IfSome result (λ n. word.now ≡ decimal n) }
    ensures small { IfSome result (λ n. n < 2 ^ 64) }
    ensures none { result ≡ None → (n : ℕ) → n < 2 ^ 64 → (word.now ≡ decimal n) → ⊥ }
{
    let Ok(number) = word.parse::<u64>() else {
        return None;
    };
    let mut buffer = Buffer::new();
    if buffer.format(number) == word {
        return Some(number);
    }
    None
}

/// The number that stands after this word, where these are the two words.
fn number_after(words: &[String], first: &str) -> Option<u64>
    ensures found { IfSome result (λ n. texts words.now ≡ first.now ∷ decimal n ∷ []) }
    ensures small { IfSome result (λ n. n < 2 ^ 64) }
    ensures none { result ≡ None → (n : ℕ) → n < 2 ^ 64 →
        (texts words.now ≡ first.now ∷ decimal n ∷ []) → ⊥ }
{
    if words.len() != 2 {
        return None;
    }
    if words[0].as_str() == first {
        return number_of(words[1].as_str());
    }
    None
}

/// The form that the words have, where they have one.
fn form_of(words: &[String]) -> Option<Form>
    ensures found { IfSome result (λ form. texts words.now ≡ words_of form) }
    ensures none { result ≡ None → (form : Form) → (texts words.now ≡ words_of form) → ⊥ }
{
    if is_one(words, "replay") {
        Some(Form::Replay)
    } else if are_two(words, "replay", "trace") {
        Some(Form::Trace)
    } else if is_one(words, "check") {
        Some(Form::Check)
    } else {
        None
    }
}

/// What the words call for, where they call for anything.
pub(crate) fn command_of(words: &[String]) -> Option<Command>
    ensures found { IfSome result (λ command. Calls (texts words.now) command) }
    ensures none { result ≡ None → (command : Command) → Calls (texts words.now) command → ⊥ }
{
    if let Some(form) = form_of(words) {
        return Some(Command::Read(Reading::Scenario(form)));
    }
    if let Some(seed) = number_after(words, "storm") {
        return Some(Command::Storm(seed));
    }
    match number_after(words, "node") {
        Some(id) if id <= 15 => Some(Command::Read(Reading::Log(id as u8))),
        _ => None,
    }
}
