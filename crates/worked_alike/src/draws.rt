//! Drawn numbers, the same each time.

ghost use Rattle.std.specs.Prelude.{◌<◌};

use node_grid::NodeSet;

/// A sequence of numbers.
#[derive(Drop)]
pub struct Draws {
    state: u32,
}

impl Draws {
    /// The sequence that begins at this number.
    pub fn new(state: u32) -> Draws {
        Draws { state }
    }

    /// The next number below 2^16.
    pub fn next(&mut self) -> u16 {
        self.state = self
            .state
            .wrapping_mul(1_664_525)
            .wrapping_add(1_013_904_223);
        (self.state >> 16) as u16
    }

    /// A number below this one.
    pub fn below(&mut self, end: u16) -> u16
        requires { 0 < end }
        ensures { result < end }
    {
        self.next() % end
    }

    /// The next answer that is true so many times of sixteen.
    pub fn is_one_of_sixteen(&mut self, times: u16) -> bool {
        self.next() % 16 < times
    }

    /// A set of some of sixteen nodes.
    pub fn nodes(&mut self) -> NodeSet<16> {
        let bits = self.next();
        let mut set = NodeSet::empty();
        for id in 0..16u8 {
            if bits >> id & 1 == 1 {
                set.put(id);
            }
        }
        set
    }
}
