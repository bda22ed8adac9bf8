//! What holds of every replay, for every message kind, script, policy and base event kinds that keep the laws.
ghost use Rattle.replay.specs.Laws.{ReplayRuns, ReplayDetermined, ReplayAnswers, ServeLaw, ReadableLaw, PageLaw, StampLaw, LongestIdleLaw};

pub fn every_trace_is_a_run<M, P>()
    ensures { ReplayRuns M P }
{}

pub fn calls_have_one_replay<M, P>()
    ensures determined { ReplayDetermined M P }
    ensures answers { ReplayAnswers M P }
{}

pub fn a_call_does_what_the_rules_allow<M, P>()
    ensures { ServeLaw M P }
{}

pub fn every_record_reads_back<M, P>()
    ensures { ReadableLaw M P }
{}

pub fn a_page_has_room_for_a_call<M, P>()
    ensures { PageLaw M P }
{}

pub fn starts_and_steps_stamp<M>()
    ensures { StampLaw M }
{}

pub fn longest_idle_names_the_idlest<P>()
    ensures { LongestIdleLaw P }
{}
