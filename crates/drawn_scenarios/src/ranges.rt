//! The rules for options, and their numbers in less room.
ghost use Rattle.std.specs.Prelude.{◌≡◌, ◌<◌, pos, None, Some};
ghost use Rattle.std.specs.Option.{option_map};
ghost use Rattle.scenario.specs.Numbers.{is_between, natural};
ghost use Rattle.drawn_scenarios.specs.Options.{has_few_rounds, has_few_faulty, cluster_refusal};
ghost use Rattle.drawn_scenarios.specs.Options.{illness_refusal, clock_refusal, options_refusal};
ghost use Rattle.drawn_scenarios.specs.Options.{clock_choices_of, choices_of};

use crate::choices::{Choices, ClockChoices};
use crate::option_parts::{ClockOptionParts, OptionParts, OptionsError};

/// Whether the number lies from `low` to `high`.
fn is_within(number: i64, low: i64, high: i64) -> bool
    ensures { result ≡ is_between low high number }
{
    low <= number && number <= high
}

impl ClockOptionParts {
    /// The first option of the clocks that is out of range.
    fn refusal(&self) -> Option<OptionsError>
        ensures { result ≡ clock_refusal self.now }
    {
        if !is_within(self.epsilon, 0, 1 << 20) {
            Some(OptionsError::Epsilon)
        } else if !is_within(self.drift, 0, 1 << 20) {
            Some(OptionsError::Drift)
        } else if !is_within(self.start, 0, 1 << 40) {
            Some(OptionsError::Start)
        } else if !is_within(self.lie, 0, 1 << 40) {
            Some(OptionsError::Lie)
        } else {
            None
        }
    }

    /// The same numbers in less room.
    fn narrowed(&self) -> ClockChoices
        requires { clock_refusal self.now ≡ None }
        ensures { result ≡ clock_choices_of self.now }
    {
        ClockChoices {
            epsilon: self.epsilon as u32,
            drift: self.drift as u32,
            start: self.start as u64,
            lie: self.lie as u64,
        }
    }
}

impl OptionParts {
    /// Whether the number of relay rounds is in range.
    fn has_few_rounds(&self) -> bool
        ensures { result ≡ has_few_rounds self.now }
    {
        is_within(self.m, 0, 3) && self.m < self.nodes
    }

    /// Whether the number of nodes that fall ill is in range.
    fn has_few_faulty(&self) -> bool
        ensures { result ≡ has_few_faulty self.now }
    {
        is_within(self.faulty, 0, 16) && self.faulty <= self.nodes
    }

    /// The first option of the cluster and its nodes that is out of range.
    fn cluster_refusal(&self) -> Option<OptionsError>
        ensures { result ≡ cluster_refusal self.now }
    {
        if !is_within(self.nodes, 3, 16) {
            Some(OptionsError::Nodes)
        } else if !self.has_few_rounds() {
            Some(OptionsError::Rounds)
        } else if !is_within(self.periods, 1, 1024) {
            Some(OptionsError::Periods)
        } else if !self.has_few_faulty() {
            Some(OptionsError::Faulty)
        } else {
            None
        }
    }

    /// The first option of illnesses that is out of range.
    fn illness_refusal(&self) -> Option<OptionsError>
        ensures { result ≡ illness_refusal self.now }
    {
        if !self.classes.has_some() {
            Some(OptionsError::Classes)
        } else if !is_within(self.rate, 0, 65_536) {
            Some(OptionsError::Rate)
        } else if !is_within(self.length, 1, 1024) {
            Some(OptionsError::Length)
        } else if !is_within(self.restart, 0, 1024) {
            Some(OptionsError::Restart)
        } else {
            None
        }
    }

    /// The first option that is out of range.
    pub(crate) fn refusal(&self) -> Option<OptionsError>
        ensures { result ≡ options_refusal self.now }
    {
        if let Some(error) = self.cluster_refusal() {
            return Some(error);
        }
        if let Some(error) = self.illness_refusal() {
            return Some(error);
        }
        match &self.clock {
            None => None,
            Some(clock) => clock.refusal(),
        }
    }

    /// The same numbers in less room.
    pub(crate) fn narrowed(&self) -> Choices
        requires { options_refusal self.now ≡ None }
        ensures { result ≡ choices_of self.now }
    {
        Choices {
            nodes: self.nodes as u8,
            m: self.m as u8,
            periods: self.periods as u32,
            faulty: self.faulty as u8,
            classes: self.classes,
            rate: self.rate as u32,
            length: self.length as u32,
            restart: self.restart as u32,
            copies: self.copies,
            clock: match &self.clock {
                None => None,
                Some(clock) => Some(clock.narrowed()),
            },
        }
    }
}
