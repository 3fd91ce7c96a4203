use forms::cursor::FormFault;
use inquiries::names::ControlName;
use inquiries::reading::{InquiryFault, read_inquiry};
use std::process::Abort;
use std::test::Fail;

// The text is no inquiry, by this fault.
fn stops(rt: &impl Abort, text: &[u8], line: u32, fault: FormFault) {
    assert_eq!(rt;
        read_inquiry(text).err(),
        Some(InquiryFault { line, fault })
    );
}

#[test]
fn an_inquiry(rt: HostRuntime) -> Result<(), Fail> {
    let inquiry = read_inquiry(b"(control general)\n(stages 2)\n(cards 0 10 2 64)\n")?;
    assert_eq!(rt; inquiry.control, ControlName::General);
    assert_eq!(rt; inquiry.stages, 2);
    assert!(rt; inquiry.counts.as_slice() == [0, 10, 2, 64].as_slice());
    Ok(())
}

#[test]
fn texts_that_are_none(rt: HostRuntime) {
    stops(&rt, b"", 1, FormFault::Layout);
    stops(
        &rt,
        b"(control push)\n(stages 2)\n(cards 1)\n",
        1,
        FormFault::UnknownWord,
    );
    stops(
        &rt,
        b"(control base)\n(stages x)\n(cards 1)\n",
        2,
        FormFault::NotANumber,
    );
    stops(
        &rt,
        b"(control base)\n(stages 2)\n(cards)\n",
        3,
        FormFault::Layout,
    );
    stops(
        &rt,
        b"(control base)\n(stages 2)\n(cards 01)\n",
        3,
        FormFault::NotANumber,
    );
    stops(
        &rt,
        b"(control base)\n(stages 2)\n(cards 1 1 1 1 1 1 1 1 1 1 1 1 1 1 1 1 1)\n",
        3,
        FormFault::Layout,
    );
    stops(
        &rt,
        b"(control base)\n(stages 2)\n(cards 1 1)",
        3,
        FormFault::Layout,
    );
    stops(
        &rt,
        b"(control base)\n(stages 2)\n(cards 1 1)\n\n",
        4,
        FormFault::Layout,
    );
}
