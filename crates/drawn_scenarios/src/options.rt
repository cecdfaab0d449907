//! The rules for options.
ghost use Rattle.drawn_scenarios.specs.Choices.{AreChoices};

use crate::bout::Bout;
use crate::choices::Choices;
use crate::option_parts::{OptionParts, OptionsError};

/// Options that are in range.
#[derive(Clone, Copy)]
pub struct Options {
    /// What is drawn.
    pub choices: Choices,
    pub ghost in_range: { AreChoices choices },
}

impl Options {
    ghost use Rattle.std.specs.Prelude.{◌≡◌, ◌-◌, ◌^◌, ◌<◌, ◌≤◌, None, Some, IfOk, IfErr, OnOk};
    ghost use Rattle.drawn_scenarios.specs.Bouts.{well_after};
    ghost use Rattle.drawn_scenarios.specs.Options.{options_refusal, choices_of};

    /// The period in which the node of a bout is well again, which is one after its restart. A node
    /// that never restarts isn't well again in any period that is run.
    pub(crate) fn well_after(&self, bout: &Bout) -> u32
        requires { bout.now.last < self.now.choices.periods }
        ensures { result ≡ well_after self.now.choices bout.now }
    {
        if self.choices.restart == 0 {
            self.choices.periods
        } else {
            bout.last + self.choices.restart + 1
        }
    }

    /// How many sets of the other nodes there are.
    pub(crate) fn set_count(&self) -> u32
        ensures value { result ≡ 2 ^ (self.now.choices.nodes - 1) }
        ensures some { 4 ≤ result }
        ensures few { result ≤ 32768 }
    {
        1 << (self.choices.nodes - 1)
    }

    /// These options.
    ///
    /// # Errors
    /// The first option that is out of range.
    pub fn new(parts: &OptionParts) -> Result<Options, OptionsError>
        ensures says { IfOk result (λ o. o.choices ≡ choices_of parts.now) }
        ensures in_range { OnOk result (options_refusal parts.now ≡ None) }
        ensures refused { IfErr result (λ e. options_refusal parts.now ≡ Some e) }
    {
        match parts.refusal() {
            Some(error) => Err(error),
            None => Ok(Options {
                choices: parts.narrowed(),
            }),
        }
    }
}
