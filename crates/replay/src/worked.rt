//! Worked cases, proved of the definitions.
ghost use Rattle.replay.specs.Worked.{Worked};

pub fn worked_cases_hold()
    ensures { Worked }
{}
