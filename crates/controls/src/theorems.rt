ghost use Rattle.controls.specs.Claims.{Compared, MoreCards, Exist, Unique, AddedAtEnd, BetterRow};

use crate::control::Control;

// What holds of the times of every line, whatever its control and its stations.
#[tactic(auto, using(crate::proofs::Proved::claims))]
pub fn times_stand<C: Control>()
    ensures compared { (c : C) → Compared (C.Control.meaning c) }
    ensures cards { (c : C) → MoreCards (C.Control.meaning c) }
    ensures some { (c : C) → Exist (C.Control.meaning c) }
    ensures once { (c : C) → Unique (C.Control.meaning c) }
    ensures added { (c : C) → AddedAtEnd (C.Control.meaning c) }
    ensures row { (c : C) → BetterRow (C.Control.meaning c) }
{}
