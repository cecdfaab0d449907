//! What holds of the answers of a node, over the definitions alone.
ghost use Rattle.controller.specs.Laws.{CausalLaw};

/// What a node answers to the first bytes of an input stands at the front of its text, whatever
/// comes behind them: so each answer can be written before more is read.
pub fn causal()
    ensures { CausalLaw }
{}
