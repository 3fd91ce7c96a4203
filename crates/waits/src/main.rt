// Tells for a control, a number of stages and counts whether they are lawful, and what every event of a part waits for.
#![tactic(auto)]

use controls::base::Base;
use controls::cards::Cards;
use controls::control::Control;
use controls::events::Event;
use controls::extended::Extended;
use controls::general::General;
use controls::kanban::Kanban;
use inquiries::names::ControlName;
use inquiries::reading::{Inquiry, read_inquiry};
use stations::numbers::StageNo;
use std::io;
use std::io::Read;
use std::process::ExitCode;

// More than any inquiry has.
const MOST_READ: u64 = 1_024;

// Tells what one event waits for. A struct of handle, control and cards would be named in three functions alone.
fn tell_event<C: Control>(
    rt: &HostRuntime,
    control: &C,
    cards: Cards<'_>,
    event: Event,
) -> io::Result<()> {
    print!(rt; "{event} waits for")?;
    let waits = control.waits(cards, event).into_iter().flatten();
    for (place, wait) in waits.enumerate() {
        let before = if place == 0 { " " } else { "; " };
        print!(rt; "{before}{wait}")?;
    }
    println!(rt; "")
}

// Tells what an event of every stage waits for.
fn tell_stages<C: Control, F: Fn(StageNo) -> Event>(
    rt: &HostRuntime,
    control: &C,
    cards: Cards<'_>,
    event: F,
) -> io::Result<()>
    requires { F.IsAlwaysCallable event }
{
    for stage in 1..=cards.stages {
        tell_event(rt, control, cards, event(StageNo(stage)))?;
    }
    Ok(())
}

// Tells what every event waits for.
fn tell_events<C: Control>(rt: &HostRuntime, control: &C, cards: Cards<'_>) -> io::Result<()> {
    tell_stages(rt, control, cards, Event::Pass)?;
    tell_stages(rt, control, cards, Event::Release)?;
    for stage in 1..=cards.stages {
        let completion = Event::Completion(StageNo(stage));
        println!(rt; "{completion} is when the part leaves station {stage}")?;
    }
    tell_event(rt, control, cards, Event::Delivery)
}

// Tells whether the counts fit and are lawful, and then of the events.
fn tell<C: Control>(rt: &HostRuntime, control: &C, inquiry: &Inquiry) -> io::Result<()> {
    let stages = inquiry.stages;
    let counts = inquiry.counts.as_slice();
    let name = inquiry.control;
    let wanted = C::COUNTS_PER_STAGE as usize * stages as usize;
    let given = counts.len();
    println!(rt; "control {name}: {wanted} places for {stages} stages, {given} counts given")?;
    if given != wanted {
        return println!(rt; "the counts do not fit the control");
    }
    let cards = Cards { stages, counts };
    if control.is_lawful(cards) {
        println!(rt; "the counts are lawful")?;
    } else {
        println!(rt; "the counts are not lawful")?;
    }
    tell_events(rt, control, cards)
}

// Answers an inquiry about a line of 1 to 8 stages.
fn answer(rt: &HostRuntime, inquiry: &Inquiry) -> io::Result<ExitCode> {
    if inquiry.stages < 1 || inquiry.stages > 8 {
        eprintln!(rt; "line 2 refused 5: the stages are not 1 to 8")?;
        return Ok(ExitCode::FAILURE);
    }
    // A match by name: each control is a type of its own, and a `dyn Control` cannot have the constant.
    match inquiry.control {
        ControlName::Base => tell(rt, &Base, inquiry)?,
        ControlName::Kanban => tell(rt, &Kanban, inquiry)?,
        ControlName::General => tell(rt, &General, inquiry)?,
        ControlName::Extended => tell(rt, &Extended, inquiry)?,
    }
    Ok(ExitCode::SUCCESS)
}

fn main(rt: HostRuntime) -> io::Result<ExitCode> {
    let mut text = Vec::new(rt.alloc());
    rt.stdin().take(MOST_READ).read_to_end(&mut text)?;
    match read_inquiry(text.as_slice()) {
        Ok(inquiry) => answer(&rt, &inquiry),
        Err(fault) => {
            eprintln!(rt; "{fault}")?;
            Ok(ExitCode::FAILURE)
        }
    }
}
