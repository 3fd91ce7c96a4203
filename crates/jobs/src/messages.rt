ghost use Rattle.std.specs.Prelude.{Some};
ghost use Rattle.jobs.specs.Messages.{answer_line, stage_fault_line, fault_line};

use crate::answers::Answer;
use crate::making::StageFault;
use crate::whole::JobFault;
use std::fmt;

impl fmt::Display for Answer {
    ghost output = { λ a. Some (answer_line a) };

    fn fmt<W: fmt::Write>(&self, f: &mut fmt::Formatter<W>) -> fmt::Result {
        match *self {
            Answer::Leaves { arrival, departure } => {
                write!(f, "arrival {arrival} leaves at {departure}")
            }
            Answer::Refused { arrival, fault } => {
                write!(f, "arrival {arrival} refused {}: {fault}", fault.number())
            }
            Answer::Freshened => write!(f, "fresh"),
        }
    }
}

impl fmt::Display for StageFault {
    ghost output = { λ e. Some (stage_fault_line e) };

    fn fmt<W: fmt::Write>(&self, f: &mut fmt::Formatter<W>) -> fmt::Result {
        match *self {
            StageFault::UnknownWeek => write!(f, "line 1 refused 16: unknown week"),
            StageFault::Setting(fault) => write!(f, "line 1 refused {}: {fault}", fault.number()),
        }
    }
}

impl fmt::Display for JobFault {
    ghost output = { λ e. Some (fault_line e) };

    fn fmt<W: fmt::Write>(&self, f: &mut fmt::Formatter<W>) -> fmt::Result {
        match *self {
            JobFault::List(fault) => write!(f, "{fault}"),
            JobFault::Stage(fault) => write!(f, "{fault}"),
            JobFault::NoMemory => write!(f, "out of memory"),
        }
    }
}
