ghost use Rattle.line_tests.specs.ByHand.{LinesByHand};

// The deliveries of lines of one stage that were worked by hand.
pub fn lines_by_hand()
    ensures { LinesByHand }
{}
