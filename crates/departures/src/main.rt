// Tells for each part of an arrival list when it leaves the station, or why it is refused.
#![tactic(auto)]

use jobs::whole::{Job, do_job};
use std::io;
use std::io::Read;
use std::process::ExitCode;

// One byte more than an arrival list may have, so that a longer input is known to be too long.
const MOST_READ: u64 = 16_385;

// Tells what the station is made of, and the steps of the job.
fn tell_job(rt: &HostRuntime, job: &Job<'_>) -> io::Result<()> {
    println!(rt; "{}", job.stage)?;
    for answer in job.answers.iter() {
        println!(rt; "{answer}")?;
    }
    Ok(())
}

fn main(rt: HostRuntime) -> io::Result<ExitCode> {
    let mut text = Vec::new(rt.alloc());
    rt.stdin().take(MOST_READ).read_to_end(&mut text)?;
    match do_job(rt.alloc(), text.as_slice()) {
        Ok(job) => {
            tell_job(&rt, &job)?;
            Ok(ExitCode::SUCCESS)
        }
        Err(fault) => {
            eprintln!(rt; "{fault}")?;
            Ok(ExitCode::FAILURE)
        }
    }
}
