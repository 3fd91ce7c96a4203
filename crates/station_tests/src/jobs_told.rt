use jobs::whole::do_job;
use std::process::Abort;
use std::test::*;

// What is told of a job: its answers, or its fault.
fn told(rt: &impl AllocGlobal, text: &[u8]) -> Result<String, Fail> {
    match do_job(rt.alloc(), text) {
        Ok(job) => {
            let mut lines = String::new(rt.alloc());
            for answer in job.answers.iter() {
                let line = answer.to_string(rt.alloc())?;
                lines.push_str(line.as_str())?;
                lines.push_str("\n")?;
            }
            Ok(lines)
        }
        Err(fault) => Ok(fault.to_string(rt.alloc())?),
    }
}

fn tells(rt: &(impl Abort + AllocGlobal), text: &[u8], expected: &str) -> Result<(), Fail> {
    let found = told(rt, text)?;
    assert!(rt; found.as_str() == expected, "{}", expected);
    Ok(())
}

#[test]
fn jobs_that_are_done(rt: HostRuntime) -> Result<(), Fail> {
    tells(&rt, b"(stage pot (machine 2 10))\n", "")?;
    tells(
        &rt,
        b"(stage pot (machine 2 10))\n(arrive 0)\n(arrive 0)\n(arrive 0)\n",
        "arrival 0 leaves at 10\narrival 0 leaves at 10\narrival 0 leaves at 20\n",
    )?;
    tells(
        &rt,
        b"(stage bay (oven 30 2 25) (week all))\n(arrive 1)\n(arrive 0)\n(arrive 1000001)\n(fresh)\n(arrive 0)\n",
        "arrival 1 leaves at 55\narrival 0 refused 4: before the last arrival\narrival 1000001 refused 3: past the end of the clock\nfresh\narrival 0 leaves at 25\n",
    )
}

#[test]
fn stages_that_cannot_be_made(rt: HostRuntime) -> Result<(), Fail> {
    tells(
        &rt,
        b"(stage pot (machine 9 0))\n",
        "line 1 refused 1: setting 1 of the machine is 9, off its range",
    )?;
    tells(
        &rt,
        b"(stage pot (machine 8 0))\n",
        "line 1 refused 1: setting 2 of the machine is 0, off its range",
    )?;
    tells(
        &rt,
        b"(stage pot (oven 30 2 31) (move 1441))\n",
        "line 1 refused 1: setting 3 of the oven is 31, off its range",
    )?;
    tells(
        &rt,
        b"(stage pot (oven 30 2 30) (move 1441))\n",
        "line 1 refused 1: setting 1 of the move is 1441, off its range",
    )?;
    tells(
        &rt,
        b"(stage pot (machine 9 0) (week late))\n",
        "line 1 refused 16: unknown week",
    )
}

#[test]
fn texts_that_are_no_list(rt: HostRuntime) -> Result<(), Fail> {
    tells(&rt, b"", "line 1 refused 16: no stage")?;
    tells(
        &rt,
        b"(stage pot (machine 2 10))",
        "line 1 refused 16: no end of line",
    )?;
    tells(&rt, b"(arrive 0)\n", "line 1 refused 16: unknown word")?;
    tells(
        &rt,
        b"(stage pot (press 2 10))\n",
        "line 1 refused 16: unknown word",
    )?;
    tells(
        &rt,
        b"(stage pot (machine 2))\n",
        "line 1 refused 16: not of the form",
    )?;
    tells(
        &rt,
        b"(stage pot (machine 2 10))\n(arrive x)\n",
        "line 2 refused 16: not a number",
    )?;
    tells(
        &rt,
        b"(stage pot (machine 2 10))\n(arrive 0)\n(arrive 01)\n",
        "line 3 refused 16: not a number",
    )?;
    tells(
        &rt,
        b"(stage pot (machine 2 10))\n(arrive 0) \n",
        "line 2 refused 16: not of the form",
    )?;
    tells(
        &rt,
        b"(stage pot (machine 2 10))\n\n",
        "line 2 refused 16: not of the form",
    )?;
    tells(&rt, &[b'('; 16_384], "line 1 refused 16: no end of line")?;
    tells(&rt, &[b'('; 16_385], "refused 15: over 16384 bytes")
}
