ghost use Rattle.std.specs.Prelude.{◌≡◌};
ghost use Rattle.rows.specs.Row.{joined};
ghost use Rattle.rows.specs.Numbering.{joined_lawful, joined_few};

use crate::loading::{Row, RowFault};
use stations::numbers::StageNo;

// The stations of two rows in one, those of the second numbered after those of the first. None past number 64 is part
// of it.
#[derive(Drop)]
pub struct Joined<A, B> {
    first: A,
    second: B,
}

impl<A: Row, B: Row> Joined<A, B> {
    // The two rows joined, as they are.
    pub fn new(first: A, second: B) -> Joined<A, B>
        ensures { ⟦<Joined<A, B> as Row>⟧.meanings result
            ≡ joined (A.Row.meanings first) (B.Row.meanings second) }
    {
        Joined { first, second }
    }
}

impl<A: Row, B: Row> Row for Joined<A, B> {
    ghost meanings = { λ r. joined (A.Row.meanings r.first) (B.Row.meanings r.second) };

    ghost lawful = { λ r.
        joined_lawful (A.Row.meanings r.first) (B.Row.meanings r.second)
        (A.Row.lawful r.first) (B.Row.lawful r.second) };

    ghost few = { λ r. joined_few (A.Row.meanings r.first) (B.Row.meanings r.second) };

    #[tactic(auto, using(crate::specs::Numbering::joined_length))]
    fn len(&self) -> u32 {
        (self.first.len() + self.second.len()).min(64)
    }

    #[tactic(auto, using(crate::proofs::Numbering::joined_front, crate::proofs::Numbering::joined_past))]
    fn load(&mut self, stage: StageNo, arrival: u32) -> Result<u32, RowFault> {
        let before = self.first.len();
        if stage.0 <= before {
            return self.first.load(stage, arrival);
        }
        if stage.0 > 64 {
            return Err(RowFault::NoStation(stage));
        }
        self.second
            .load(StageNo(stage.0 - before), arrival)
            .map_err(|fault| fault.renumbered(stage))
    }

    #[tactic(auto, using(crate::proofs::Numbering::joined_fresh))]
    fn fresh(&mut self) {
        self.first.fresh();
        self.second.fresh();
    }
}
