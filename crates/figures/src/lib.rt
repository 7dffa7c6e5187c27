#![tactic(auto)]

// Figures worked by hand, shown of the definitions that the contracts cite.
ghost use Rattle.figures.specs.Figures.{WorkedFigures};

// What the definitions come to on numbers that can be checked by hand; the call does nothing.
#[tactic(auto, using(crate::proofs::Figures::worked_figures))]
pub fn worked_figures_stand()
    ensures { WorkedFigures }
{}
