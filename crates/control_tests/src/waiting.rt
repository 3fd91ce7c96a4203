use controls::base::Base;
use controls::cards::Cards;
use controls::control::Control;
use controls::events::{Event, Wait};
use controls::extended::Extended;
use controls::general::General;
use controls::kanban::Kanban;
use stations::numbers::StageNo;
use std::process::Abort;

fn pass(stage: u32) -> Event {
    Event::Pass(StageNo(stage))
}

fn release(stage: u32) -> Event {
    Event::Release(StageNo(stage))
}

fn completion(stage: u32) -> Event {
    Event::Completion(StageNo(stage))
}

// The event waits for these, in this order, and for nothing else.
fn waits_for<C: Control>(
    rt: &impl Abort,
    control: &C,
    cards: Cards<'_>,
    event: Event,
    expected: &[Wait],
) {
    let mut left = expected.iter().copied();
    for found in control.waits(cards, event).into_iter().flatten() {
        assert_eq!(rt; Some(found), left.next());
    }
    assert_eq!(rt; left.next(), None, "a wait is missing");
}

#[test]
fn counts_for_a_stage(rt: HostRuntime) {
    assert_eq!(rt; Base::COUNTS_PER_STAGE, 1);
    assert_eq!(rt; Kanban::COUNTS_PER_STAGE, 1);
    assert_eq!(rt; General::COUNTS_PER_STAGE, 2);
    assert_eq!(rt; Extended::COUNTS_PER_STAGE, 2);
}

// The cards of a line of two stages.
fn of_two(counts: &[u32]) -> Cards<'_> {
    Cards { stages: 2, counts }
}

#[test]
fn lawful_counts(rt: HostRuntime) {
    assert!(rt; Base.is_lawful(of_two(&[0, 0])));
    assert!(rt; Kanban.is_lawful(of_two(&[1, 1])));
    assert!(rt; !Kanban.is_lawful(of_two(&[1, 0])));
    assert!(rt; !Kanban.is_lawful(of_two(&[1])));
    assert!(rt; General.is_lawful(of_two(&[0, 0, 1, 1])));
    assert!(rt; !General.is_lawful(of_two(&[5, 5, 1, 0])));
    assert!(rt; Extended.is_lawful(of_two(&[0, 1, 1, 0])));
    assert!(rt; !Extended.is_lawful(of_two(&[0, 1, 0, 1])));
}

#[test]
fn base_stock(rt: HostRuntime) {
    let cards = of_two(&[3, 4]);
    waits_for(&rt, &Base, cards, pass(1), &[Wait::Call]);
    waits_for(&rt, &Base, cards, release(1), &[Wait::Call]);
    waits_for(
        &rt,
        &Base,
        cards,
        release(2),
        &[Wait::Call, Wait::After(completion(1), 3)],
    );
    waits_for(
        &rt,
        &Base,
        cards,
        Event::Delivery,
        &[Wait::Call, Wait::After(completion(2), 4)],
    );
    waits_for(&rt, &Base, cards, completion(1), &[]);
    waits_for(&rt, &Base, cards, release(0), &[]);
    waits_for(&rt, &Base, cards, release(3), &[]);
}

#[test]
fn kanban(rt: HostRuntime) {
    let cards = of_two(&[3, 4]);
    waits_for(&rt, &Kanban, cards, pass(2), &[Wait::Call]);
    waits_for(
        &rt,
        &Kanban,
        cards,
        release(1),
        &[Wait::After(release(2), 0)],
    );
    waits_for(
        &rt,
        &Kanban,
        cards,
        release(2),
        &[
            Wait::After(Event::Delivery, 0),
            Wait::After(completion(1), 3),
        ],
    );
    waits_for(
        &rt,
        &Kanban,
        cards,
        Event::Delivery,
        &[Wait::Call, Wait::After(completion(2), 4)],
    );
}

#[test]
fn generalized_kanban(rt: HostRuntime) {
    let cards = of_two(&[3, 4, 5, 6]);
    waits_for(
        &rt,
        &General,
        cards,
        pass(1),
        &[Wait::After(pass(2), 0), Wait::After(completion(1), 5)],
    );
    waits_for(
        &rt,
        &General,
        cards,
        pass(2),
        &[Wait::Call, Wait::After(completion(2), 6)],
    );
    waits_for(&rt, &General, cards, release(1), &[Wait::After(pass(1), 0)]);
    waits_for(
        &rt,
        &General,
        cards,
        release(2),
        &[Wait::After(pass(2), 0), Wait::After(completion(1), 3)],
    );
    waits_for(
        &rt,
        &General,
        cards,
        Event::Delivery,
        &[Wait::Call, Wait::After(completion(2), 4)],
    );
}

#[test]
fn extended_kanban(rt: HostRuntime) {
    let cards = of_two(&[3, 4, 5, 6]);
    let second = [
        Wait::Call,
        Wait::After(Event::Delivery, 6),
        Wait::After(completion(1), 3),
    ];
    waits_for(&rt, &Extended, cards, pass(1), &[Wait::Call]);
    waits_for(
        &rt,
        &Extended,
        cards,
        release(1),
        &[Wait::Call, Wait::After(release(2), 5)],
    );
    waits_for(&rt, &Extended, cards, release(2), &second);
    waits_for(
        &rt,
        &Extended,
        cards,
        Event::Delivery,
        &[Wait::Call, Wait::After(completion(2), 4)],
    );
}
