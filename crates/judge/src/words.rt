//! The words that the program is called with.
ghost use Rattle.std.specs.Prelude.{◌≡◌, ℕ, ◌≤◌, length, IfSome, None, decimal};
ghost use Rattle.judge.specs.Words.{texts, Calls};
ghost use Rattle.judge.specs.declared.words.Command.{Command as CommandIs};
ghost use Rattle.judge.specs.declared.words.Draw.{Draw as DrawIs};
ghost use Rattle.judge.specs.declared.words.Draws.{Draws as DrawsAre};
ghost use Rattle.judge.specs.declared.words.Command.TheVariants as commands;

use program_words::number_of;

/// How many seeds there are, and how many scenarios of each.
const NUMBERS: u64 = 4_294_967_296;

/// Scenarios of a seed: those with the indices from `first` on, below 2^32 all.
#[derive(Clone, Copy)]
pub struct Draws {
    /// The seed.
    pub seed: u32,
    /// The first index.
    pub first: u32,
    /// How many there are.
    pub count: u64,
}

/// A scenario of a seed.
#[derive(Clone, Copy)]
pub struct Draw {
    /// The seed.
    pub seed: u32,
    /// The index.
    pub index: u32,
}

/// What the program is called for.
#[derive(Clone, Copy)]
pub enum Command {
    /// No words: each line of the input is a scenario that is judged.
    Lines,
    /// `draw SEED FIRST COUNT`: these are drawn by the options on the line of the input, and
    /// judged.
    Draw(Draws),
    /// `show SEED INDEX`: this one is drawn, and written.
    Show(Draw),
}

/// The number that a word is in decimal, at most `most`, without a sign and without zeros before
/// it.
fn number_to(most: u64, word: &str) -> Option<u64>
    ensures found { IfSome result (λ n. word.now ≡ decimal n) }
    ensures small { IfSome result (λ n. n ≤ most) }
    ensures none { result ≡ None → (n : ℕ) → n ≤ most → (word.now ≡ decimal n) → ⊥ }
{
    let Some(number) = number_of(word) else {
        return None;
    };
    if number > most {
        return None;
    }
    Some(number)
}

/// The draws that four words call for.
fn draws_of(words: &[String]) -> Option<Draws>
    requires { length words.now ≡ 4 }
    ensures found { IfSome result (λ d. Calls (texts words.now) (commands.Draw d)) }
    ensures none { result ≡ None
        → (d : DrawsAre) → Calls (texts words.now) (commands.Draw d) → ⊥ }
{
    if words[0].as_str() == "draw" {
        let seed = number_to(NUMBERS - 1, words[1].as_str())?;
        let first = number_to(NUMBERS - 1, words[2].as_str())?;
        let count = number_to(NUMBERS - first, words[3].as_str())?;
        return Some(Draws {
            seed: seed as u32,
            first: first as u32,
            count,
        });
    }
    None
}

/// The draw that three words call for.
fn draw_of(words: &[String]) -> Option<Draw>
    requires { length words.now ≡ 3 }
    ensures found { IfSome result (λ d. Calls (texts words.now) (commands.Show d)) }
    ensures none { result ≡ None → (d : DrawIs) → Calls (texts words.now) (commands.Show d) → ⊥ }
{
    if words[0].as_str() == "show" {
        let seed = number_to(NUMBERS - 1, words[1].as_str())?;
        let index = number_to(NUMBERS - 1, words[2].as_str())?;
        return Some(Draw {
            seed: seed as u32,
            index: index as u32,
        });
    }
    None
}

/// What the words call for, where they call for anything.
pub(crate) fn command_of(words: &[String]) -> Option<Command>
    ensures found { IfSome result (λ command. Calls (texts words.now) command) }
    ensures none { result ≡ None → (command : CommandIs) → Calls (texts words.now) command → ⊥ }
{
    match words.len() {
        0 => Some(Command::Lines),
        3 => Some(Command::Show(draw_of(words)?)),
        4 => Some(Command::Draw(draws_of(words)?)),
        _ => None,
    }
}
