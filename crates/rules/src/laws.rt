//! What holds of every run, for every message kind, script and base event kinds that keep the laws.
ghost use Rattle.rules.specs.Laws.{SettledOnce, PairsJoin, OnesSettle, OffersLaw, PostsLaw, FrameLaw, SoonestLaw, StepsOfAble, ListedAble, ListedLaw, MovesLaw, RoomLaw, QuietLaw, NumbersLaw, LiveLaw, DeliveredLawful, DeliveredReplies, ChannelLaw};
ghost use Rattle.rules.specs.Branches.{BranchLaw};
ghost use Rattle.rules.specs.Limits.{LimitsLaw};
ghost use Rattle.rules.specs.Nacks.{NackLaw, VoidLaw, FireLaw};
ghost use Rattle.rules.specs.Holdings.{HeldLaw, OwnPortsLaw};

pub fn no_sync_is_settled_twice<M>()
    ensures { SettledOnce M }
{}

pub fn a_pair_joins_a_send_and_a_receive<M>()
    ensures { PairsJoin M }
{}

pub fn a_sync_settled_alone_was_open_alone<M>()
    ensures { OnesSettle M }
{}

pub fn an_accepted_script_keeps_its_limits<M>()
    ensures { LimitsLaw M }
{}

pub fn only_waiting_leaves_are_offered<M>()
    ensures { OffersLaw M }
{}

pub fn a_post_finds_room<M>()
    ensures { PostsLaw M }
{}

pub fn only_those_who_step_change<M>()
    ensures { FrameLaw M }
{}

pub fn just_the_able_tasks_have_steps<M>()
    ensures able { StepsOfAble M }
    ensures moves { MovesLaw M }
    ensures listed { ListedAble M }
    ensures room { RoomLaw M }
{}

pub fn able_tasks_and_open_leaves_are_listed_in_order<M>()
    ensures { ListedLaw M }
{}

pub fn quiet_when_no_step_exists<M>()
    ensures { QuietLaw M }
{}

pub fn numbers_rise<M>()
    ensures { NumbersLaw M }
{}

pub fn few_tasks_live<M>()
    ensures { LiveLaw M }
{}

pub fn a_branch_is_the_leaves_in_its_with_nack<M>()
    ensures { BranchLaw M }
{}

pub fn a_nack_fires_when_settled_outside_its_branch<M>()
    ensures made { NackLaw M }
    ensures void { VoidLaw M }
{}

pub fn one_fire_record_for_each_nack_that_fires<M>()
    ensures { FireLaw M }
{}

pub fn messages_are_kept<M>()
    ensures held { HeldLaw M }
    ensures own { OwnPortsLaw M }
{}

pub fn the_delivered_kinds_are_lawful()
    ensures lawful { DeliveredLawful }
    ensures replies { DeliveredReplies }
{}

pub fn a_channel_pairs_with_the_smallest_sync()
    ensures { ChannelLaw }
{}

pub fn the_soonest_due_time_is_the_smallest<X>()
    ensures { SoonestLaw X }
{}
