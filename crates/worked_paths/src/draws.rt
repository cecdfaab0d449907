use node_grid::NodeSet;

/// A sequence of numbers, the same each time.
#[derive(Drop)]
pub struct Draws {
    state: u32,
}

impl Draws {
    /// The sequence that begins with this number.
    pub fn new(state: u32) -> Draws {
        Draws { state }
    }

    /// The next number below 2^16.
    pub fn next(&mut self) -> u16 {
        self.state = self
            .state
            .wrapping_mul(1_664_525)
            .wrapping_add(1_013_904_223);
        (self.state >> 16) as u16
    }

    /// A set of nodes of eight, each of them in it with three fourths.
    pub fn nodes(&mut self) -> NodeSet<8> {
        let bits = self.next() | self.next();
        let mut set = NodeSet::empty();
        for id in 0..8u8 {
            if bits >> id & 1 == 1 {
                set.put(id);
            }
        }
        set
    }
}
