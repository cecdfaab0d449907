//! Numbers that are drawn from a generator, one word after another.
#![tactic(auto)]

ghost use Rattle.std.specs.Prelude.{◌≡◌, ◌<◌};
ghost use Rattle.draws.specs.Draws.{draw, draw_wide, generator_of, next_word};

use rand_core::SeedableRng;
use rand_core::utils::NextWord;
use rand_pcg::Lcg64Xsh32;

/// How many words there are.
const WORD: u64 = 1 << 32;

/// The generator of a number.
pub fn generator(seed: u64) -> Lcg64Xsh32
    ensures { result ≡ generator_of seed }
{
    Lcg64Xsh32::seed_from_u64(seed)
}

/// The generator's next word, of 32 bits.
fn next_word(generator: &mut Lcg64Xsh32) -> u32
    ensures { (result, generator.new) ≡ next_word generator.old }
{
    generator.next_word()
}

/// The remainder by `count` of the generator's next word.
pub fn draw(generator: &mut Lcg64Xsh32, count: u32) -> u32
    requires { 0 < count }
    ensures drawn { (result, generator.new) ≡ draw count generator.old }
    ensures below { result < count }
{
    next_word(generator) % count
}

/// The remainder by `count` of the number whose high half is the generator's next word, and whose
/// low half is the one after it.
pub fn draw_wide(generator: &mut Lcg64Xsh32, count: u64) -> u64
    requires { 0 < count }
    ensures drawn { (result, generator.new) ≡ draw_wide count generator.old }
    ensures below { result < count }
{
    let high = next_word(generator);
    let low = next_word(generator);
    (u64::from(high) * WORD + u64::from(low)) % count
}
