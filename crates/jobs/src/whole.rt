ghost use Rattle.std.specs.Prelude.{◌≡◌, MatchResult};
ghost use Rattle.forms.specs.Stages.{stage_said};
ghost use Rattle.jobs.specs.Job.{Done, NotDone, job_number};
ghost use Rattle.jobs.specs.declared.whole.JobFault.TheVariants.{List, Stage, NoMemory};

use crate::answers::Answer;
use crate::making::{StageFault, make_station};
use crate::runs::work_through;
use arrivals::lists::{ListFault, read_list};
use forms::stages::StageForm;
use std::alloc::{AllocError, Global};

// A stage, and what its station answered to the entries of the list.
#[derive(Drop)]
pub struct Job<'f> {
    pub stage: StageForm<'f>,
    pub answers: Vec<Answer>,
}

// Why a job cannot be done.
#[derive(Clone, Copy, PartialEq, Eq, Debug)]
pub enum JobFault {
    // The text is no arrival list.
    List(ListFault),
    // No station can be made of the stage on the first line.
    Stage(StageFault),
    NoMemory,
}

impl From<ListFault> for JobFault {
    ghost from_gives = { λ f r. r ≡ List f };

    fn from(fault: ListFault) -> JobFault {
        JobFault::List(fault)
    }
}

impl From<StageFault> for JobFault {
    ghost from_gives = { λ f r. r ≡ Stage f };

    fn from(fault: StageFault) -> JobFault {
        JobFault::Stage(fault)
    }
}

impl From<AllocError> for JobFault {
    ghost from_gives = { λ _ r. r ≡ NoMemory };

    fn from(_none: AllocError) -> JobFault {
        JobFault::NoMemory
    }
}

impl JobFault {
    // The number of the refusal, or 0 where memory ran out.
    pub fn number(&self) -> u32
        ensures { result ≡ job_number self.now }
    {
        match self {
            JobFault::List(fault) => fault.number(),
            JobFault::Stage(fault) => fault.number(),
            JobFault::NoMemory => 0,
        }
    }
}

// Reads an arrival list, makes its station and works the list through.
pub fn do_job<'f>(heap: Global, text: &'f [u8]) -> Result<Job<'f>, JobFault>
    ensures { MatchResult result (λ j. Done text.now (stage_said j.stage) j.answers.items) (λ e. NotDone text.now e) }
{
    let list = read_list(heap, text)?;
    let stage = list.stage;
    let mut station = make_station(stage)?;
    let answers = work_through(heap, &mut station, list.entries.as_slice())?;
    Ok(Job { stage, answers })
}
