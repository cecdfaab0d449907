//! What holds of rows, over the definitions alone.
ghost use Rattle.judge.specs.Laws.{OneTextLaw};

/// The bytes of a line decide its rows: there is one text that they are.
pub fn one_text()
    ensures { OneTextLaw }
{}
