//! Generated traces, worked by hand.
ghost use Rattle.trace_maker.specs.MakingRows.{MakesOneLine, MakesFortyLines};

/// Generated traces.
pub fn generated()
    ensures one_line { MakesOneLine }
    ensures forty_lines { MakesFortyLines }
{}
