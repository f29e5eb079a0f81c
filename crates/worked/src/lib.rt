//! The tariff's worked figures, as one fact.
#![tactic(auto)]

ghost use Rattle.worked.specs.Figures.{WorkedFigures};

/// Computes nothing: its contract states that the worked figures follow from the definitions.
pub fn worked_figures()
    ensures { WorkedFigures }
{}
