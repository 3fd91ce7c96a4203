ghost use Rattle.std.specs.Prelude.{[], IfOk, None};
ghost use Rattle.stations.specs.Rule.{freshened};
ghost use Rattle.jobs.specs.Run.{Step, Worked, Answered};

use crate::answers::Answer;
use arrivals::lines::Entry;
use stations::loading::Station;
use std::alloc::{AllocError, Global};

// Does what one entry says.
fn answer<S: Station>(station: &mut S, entry: Entry) -> Answer
    ensures { Step (S.Station.meaning station.old) entry result (S.Station.meaning station.new) }
{
    match entry {
        Entry::Arrive(arrival) => match station.load(arrival) {
            Ok(departure) => Answer::Leaves { arrival, departure },
            Err(fault) => Answer::Refused { arrival, fault },
        },
        Entry::Fresh => {
            station.fresh();
            Answer::Freshened
        }
    }
}

// Makes the station fresh, does what each entry says and answers it. Each part that is taken leaves as the station's fresh
// rule has it for the arrivals that were granted since the station was fresh. The station is left as the last entry leaves it.
pub fn work_through<S: Station>(
    heap: Global,
    station: &mut S,
    entries: &[Entry],
) -> Result<Vec<Answer>, AllocError>
    ensures answered { IfOk result (λ v. Answered (S.Station.meaning station.old).fresh [] None entries.now v.items) }
    ensures left { IfOk result (λ v. Worked (freshened (S.Station.meaning station.old)) entries.now v.items (S.Station.meaning station.new)) }
{
    station.fresh();
    let mut answers = Vec::new(heap);
    for asked in entries {
        answers.push(answer(station, *asked))?;
    }
    Ok(answers)
}
