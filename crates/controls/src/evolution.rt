ghost use Rattle.controls.specs.Evolution.{BaseEvolves, KanbanEvolves, GeneralEvolves, ExtendedEvolves};

// The times of every line obey the equations of its control.
#[tactic(auto, using(crate::proofs::Evolving::equations))]
pub fn times_evolve()
    ensures base { BaseEvolves }
    ensures kanban { KanbanEvolves }
    ensures general { GeneralEvolves }
    ensures extended { ExtendedEvolves }
{}
