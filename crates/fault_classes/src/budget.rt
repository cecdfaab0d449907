ghost use Rattle.std.specs.Prelude.{◌≡◌, ◌+◌, ◌<◌, ◌↔◌, IsTrue};

use node_grid::Class;

/// How many members a period has, and how many of each faulty class.
#[derive(Clone, Copy)]
pub struct Budget {
    /// The members.
    pub n: u8,
    /// The asymmetric ones.
    pub a: u8,
    /// The symmetric ones.
    pub s: u8,
    /// The benign and the joining ones.
    pub b: u8,
}

impl Budget {
    ghost use Rattle.fault_classes.specs.Budget.{Holds, with_member};

    /// Counts a member of this class, which `n` counts already.
    pub(crate) fn add(&mut self, class: Class)
        requires { self.old.a + self.old.s + self.old.b < 255 }
        ensures { self.new ≡ with_member self.old class }
    {
        match class {
            Class::N => {}
            Class::A => self.a += 1,
            Class::S => self.s += 1,
            Class::J | Class::B => self.b += 1,
        }
    }

    /// Whether `m` relay rounds tolerate this: `a <= m` and `n > 2a + 2s + b + m`.
    ///
    /// The bound of `n` is that of the hybrid fault model of Thambidurai and Park (1988), with
    /// every round counted.
    pub fn holds(&self, m: u8) -> bool
        ensures { IsTrue result ↔ Holds self.now m }
    {
        let faulty = 2 * self.a as u16 + 2 * self.s as u16 + self.b as u16 + m as u16;
        self.a <= m && faulty < self.n as u16
    }
}
