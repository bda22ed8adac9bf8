//! Example offers, times and messages: what the kinds reply, and what a commit leaves in the cells.
#![tactic(auto)]

ghost use Rattle.std.proofs.Common.{lit<, refl};
ghost use Rattle.rules.specs.Delivered.{timeout};
ghost use Rattle.rules.specs.Limits.{most_held};
ghost use Rattle.rules.specs.declared.kind.BaseKind.TheVariants.{Timeout as TimeoutKind};
ghost use Rattle.rules.proofs.DeliveredKinds.{delivered_lawful};

#[cfg(test)]
mod examples {
    use kinds::kind::Kind;
    use rules::offer::{Offer, Reply, Side};
    use std::process::Abort;

    pub fn with(sync: u32, leaf: u8) -> Reply {
        Reply::With { sync, leaf }
    }

    pub fn give(sync: u32, leaf: u8, port: u8) -> Offer {
        Offer {
            sync,
            leaf,
            port,
            side: Side::Give,
            due: 0,
        }
    }

    pub fn take(sync: u32, leaf: u8, port: u8) -> Offer {
        Offer {
            sync,
            leaf,
            port,
            side: Side::Take,
            due: 0,
        }
    }

    pub fn due(sync: u32, leaf: u8, due: u64) -> Offer {
        Offer {
            sync,
            leaf,
            port: 0,
            side: Side::Take,
            due,
        }
    }

    pub fn check_enrol<K: Kind>(rt: &impl Abort, kind: &mut K, offers: &[Offer]) {
        for o in offers {
            assert!(rt; kind.enrol(*o));
        }
    }

    pub fn check_refused<K: Kind>(rt: &impl Abort, kind: &mut K, offers: &[Offer]) {
        for o in offers {
            assert!(rt; !kind.enrol(*o));
        }
    }

    pub fn check_stand<K: Kind>(rt: &impl Abort, kind: &K, stands: &[(Offer, Reply)]) {
        for (o, want) in stands {
            assert_eq!(rt; kind.poll(*o), *want);
        }
    }

    // Commits the offers, each with a message, at ports that a script can have.
    pub fn check_commit<K: Kind>(
        rt: &impl Abort,
        kind: &mut K,
        cells: &mut [u32; 32],
        commits: &[(Offer, u32, Option<u32>)],
    ) {
        for (o, message, want) in commits {
            assert!(rt; o.port < 16);
            assert_eq!(rt; kind.commit(*o, *message, cells), *want);
        }
    }
}

#[cfg(test)]
mod offers_tests {
    use crate::examples::{check_enrol, check_refused, give, take};
    use kinds::channel::Channel;
    use kinds::kind::Kind;
    use kinds::mailbox::Mailbox;
    use kinds::timeout::Timeout;
    use kinds::variable::{Ivar, Mvar};
    use std::alloc::Global;
    use std::process::Abort;
    use std::test::Fail;

    // The sync and leaf of each offer that waits, in order.
    fn check_waiting<K: Kind>(rt: &impl Abort, kind: &K, leaves: &[(u32, u8)]) {
        assert_eq!(rt; kind.waiting().len(), leaves.len());
        for (o, leaf) in kind.waiting().iter().zip(leaves) {
            assert_eq!(rt; (o.sync, o.leaf), *leaf);
        }
    }

    // One leaf is enrolled once, whatever it offers, and a sync is withdrawn whole.
    fn enrolled<K: Kind + Drop>(rt: &impl Abort, heap: Global) -> Result<(), Fail> {
        let mut kind = K::fresh(heap)?;
        check_waiting(rt, &kind, &[]);
        check_enrol(
            rt,
            &mut kind,
            &[give(1, 0, 3), take(2, 0, 3), take(1, 1, 3)],
        );
        check_refused(
            rt,
            &mut kind,
            &[give(1, 0, 3), take(1, 0, 4), take(1, 1, 3)],
        );
        check_waiting(rt, &kind, &[(1, 0), (2, 0), (1, 1)]);
        kind.withdraw(7);
        check_waiting(rt, &kind, &[(1, 0), (2, 0), (1, 1)]);
        kind.withdraw(1);
        check_waiting(rt, &kind, &[(2, 0)]);
        check_enrol(rt, &mut kind, &[give(1, 0, 3)]);
        check_waiting(rt, &kind, &[(2, 0), (1, 0)]);
        Ok(())
    }

    // There is room for 1,025 offers.
    fn filled<K: Kind + Drop>(rt: &impl Abort, heap: Global) -> Result<(), Fail> {
        let mut kind = K::fresh(heap)?;
        for sync in 0..1024 {
            assert!(rt; kind.enrol(give(sync, 0, 0)));
        }
        assert_eq!(rt; kind.waiting().len(), 1024);
        check_enrol(rt, &mut kind, &[give(1024, 0, 0)]);
        check_refused(rt, &mut kind, &[give(1025, 0, 0)]);
        assert_eq!(rt; kind.waiting().len(), 1025);
        kind.withdraw(5);
        assert_eq!(rt; kind.waiting().len(), 1024);
        check_enrol(rt, &mut kind, &[give(1025, 0, 0)]);
        check_refused(rt, &mut kind, &[give(5, 0, 0)]);
        Ok(())
    }

    #[test]
    fn enrolled_once(rt: HostRuntime) -> Result<(), Fail> {
        enrolled::<Channel>(&rt, rt.alloc())?;
        enrolled::<Mailbox>(&rt, rt.alloc())?;
        enrolled::<Ivar>(&rt, rt.alloc())?;
        enrolled::<Mvar>(&rt, rt.alloc())?;
        enrolled::<Timeout>(&rt, rt.alloc())
    }

    #[test]
    fn filled_up(rt: HostRuntime) -> Result<(), Fail> {
        filled::<Channel>(&rt, rt.alloc())?;
        filled::<Mailbox>(&rt, rt.alloc())?;
        filled::<Timeout>(&rt, rt.alloc())
    }
}

#[cfg(test)]
mod channel_tests {
    use crate::examples::{check_commit, check_enrol, check_stand, give, take, with};
    use kinds::channel::Channel;
    use kinds::kind::Kind;
    use rules::offer::Offer;
    use rules::offer::Reply::Closed;
    use std::test::Fail;

    // The sides of one sync never pair.
    #[test]
    fn own_offers(rt: HostRuntime) -> Result<(), Fail> {
        let mut channels = Channel::fresh(rt.alloc())?;
        let (own_give, own_take, other) = (give(5, 0, 2), take(5, 1, 2), take(6, 1, 2));
        check_enrol(&rt, &mut channels, &[own_give, own_take]);
        check_stand(&rt, &channels, &[(own_give, Closed), (own_take, Closed)]);
        check_enrol(&rt, &mut channels, &[other]);
        check_stand(
            &rt,
            &channels,
            &[
                (own_give, with(6, 1)),
                (own_take, Closed),
                (other, with(5, 0)),
            ],
        );
        Ok(())
    }

    // Syncs with offers on both sides: each pairs with the other sync alone, at its smallest leaf.
    #[test]
    fn equal_syncs(rt: HostRuntime) -> Result<(), Fail> {
        let mut channels = Channel::fresh(rt.alloc())?;
        check_enrol(
            &rt,
            &mut channels,
            &[give(5, 3, 2), give(5, 1, 2), take(5, 2, 2)],
        );
        check_enrol(
            &rt,
            &mut channels,
            &[take(6, 4, 2), take(6, 0, 2), give(6, 5, 2)],
        );
        check_stand(
            &rt,
            &channels,
            &[
                (give(5, 3, 2), with(6, 0)),
                (take(5, 2, 2), with(6, 5)),
                (take(6, 4, 2), with(5, 1)),
                (give(6, 5, 2), with(5, 2)),
            ],
        );
        Ok(())
    }

    // The smallest sync number, then the smallest leaf.
    #[test]
    fn soonest_partner(rt: HostRuntime) -> Result<(), Fail> {
        let mut channels = Channel::fresh(rt.alloc())?;
        check_enrol(
            &rt,
            &mut channels,
            &[take(9, 3, 2), take(7, 4, 2), give(5, 1, 2), take(7, 2, 2)],
        );
        check_enrol(
            &rt,
            &mut channels,
            &[take(7, 3, 2), give(6, 0, 2), take(1, 0, 3), give(1, 1, 2)],
        );
        let stands = [
            (give(5, 1, 2), with(7, 2)),
            (give(6, 0, 2), with(7, 2)),
            (take(9, 3, 2), with(1, 1)),
            (take(1, 0, 3), Closed),
        ];
        check_stand(&rt, &channels, &stands);
        channels.withdraw(7);
        channels.withdraw(1);
        check_stand(
            &rt,
            &channels,
            &[(give(6, 0, 2), with(9, 3)), (take(9, 3, 2), with(5, 1))],
        );
        channels.withdraw(9);
        check_stand(
            &rt,
            &channels,
            &[(give(6, 0, 2), Closed), (take(9, 3, 2), Closed)],
        );
        Ok(())
    }

    // Only an offer that waits, in all its parts, is open.
    #[test]
    fn absent_offers(rt: HostRuntime) -> Result<(), Fail> {
        let mut channels = Channel::fresh(rt.alloc())?;
        check_enrol(&rt, &mut channels, &[give(5, 0, 2), take(6, 1, 2)]);
        let late = Offer {
            due: 1,
            ..give(5, 0, 2)
        };
        let stands = [
            (give(5, 0, 2), with(6, 1)),
            (give(4, 0, 2), Closed),
            (give(5, 1, 2), Closed),
            (give(5, 0, 3), Closed),
            (take(5, 0, 2), Closed),
            (late, Closed),
        ];
        check_stand(&rt, &channels, &stands);
        Ok(())
    }

    // A channel holds nothing, so a commit there changes no cell.
    #[test]
    fn nothing_held(rt: HostRuntime) -> Result<(), Fail> {
        let mut channels = Channel::fresh(rt.alloc())?;
        let mut cells = [0; 32];
        let (giver, taker) = (give(5, 0, 2), take(6, 1, 2));
        check_enrol(&rt, &mut channels, &[giver, taker]);
        check_commit(
            &rt,
            &mut channels,
            &mut cells,
            &[(giver, 9, None), (taker, 9, None)],
        );
        assert_eq!(rt; cells, [0; 32]);
        check_stand(&rt, &channels, &[(giver, with(6, 1)), (taker, with(5, 0))]);
        Ok(())
    }
}

#[cfg(test)]
mod holder_tests {
    use crate::examples::{check_commit, check_enrol, check_stand, give, take};
    use kinds::kind::Kind;
    use kinds::mailbox::Mailbox;
    use kinds::variable::{Ivar, Mvar};
    use rules::offer::Reply::{Alone, Closed};
    use rules::offer::{Offer, Side};
    use std::process::Abort;
    use std::test::Fail;

    const GIVE: Offer = Offer {
        sync: 1,
        leaf: 0,
        port: 15,
        side: Side::Give,
        due: 0,
    };

    const TAKE: Offer = Offer {
        sync: 2,
        leaf: 0,
        port: 15,
        side: Side::Take,
        due: 0,
    };

    // Gives the messages from 0 on.
    fn check_given(rt: &impl Abort, mailboxes: &mut Mailbox, cells: &mut [u32; 32], count: u32) {
        for message in 0..count {
            check_stand(rt, mailboxes, &[(GIVE, Alone)]);
            check_commit(rt, mailboxes, cells, &[(GIVE, message, None)]);
            check_stand(rt, mailboxes, &[(TAKE, Alone)]);
        }
    }

    // Takes the messages from 0 on.
    fn check_taken(rt: &impl Abort, mailboxes: &mut Mailbox, cells: &mut [u32; 32], count: u32) {
        for message in 0..count {
            check_stand(rt, mailboxes, &[(TAKE, Alone)]);
            check_commit(rt, mailboxes, cells, &[(TAKE, 99, Some(message))]);
            check_stand(rt, mailboxes, &[(GIVE, Alone)]);
        }
    }

    // At 0, 1, 31 and 32 held; the 33rd message is not held, and the oldest goes first.
    #[test]
    fn mailbox_filled(rt: HostRuntime) -> Result<(), Fail> {
        let mut mailboxes = Mailbox::fresh(rt.alloc())?;
        let mut cells = [0; 32];
        check_enrol(&rt, &mut mailboxes, &[GIVE, TAKE]);
        for count in [0, 1, 31, 32] {
            check_stand(&rt, &mailboxes, &[(GIVE, Alone), (TAKE, Closed)]);
            check_given(&rt, &mut mailboxes, &mut cells, count);
            check_taken(&rt, &mut mailboxes, &mut cells, count);
            check_commit(&rt, &mut mailboxes, &mut cells, &[(TAKE, 99, None)]);
        }
        check_given(&rt, &mut mailboxes, &mut cells, 32);
        check_stand(&rt, &mailboxes, &[(GIVE, Closed), (TAKE, Alone)]);
        check_commit(&rt, &mut mailboxes, &mut cells, &[(GIVE, 99, None)]);
        check_taken(&rt, &mut mailboxes, &mut cells, 32);
        Ok(())
    }

    // The places go round.
    #[test]
    fn mailbox_round(rt: HostRuntime) -> Result<(), Fail> {
        let mut mailboxes = Mailbox::fresh(rt.alloc())?;
        let mut cells = [0; 32];
        check_enrol(&rt, &mut mailboxes, &[GIVE, TAKE]);
        check_given(&rt, &mut mailboxes, &mut cells, 31);
        for message in 0..70 {
            check_commit(
                &rt,
                &mut mailboxes,
                &mut cells,
                &[(GIVE, message + 31, None)],
            );
            check_stand(&rt, &mailboxes, &[(GIVE, Closed)]);
            check_commit(&rt, &mut mailboxes, &mut cells, &[(TAKE, 0, Some(message))]);
        }
        Ok(())
    }

    // A port holds its own messages, and one past the last port holds none.
    #[test]
    fn mailbox_ports(rt: HostRuntime) -> Result<(), Fail> {
        let mut mailboxes = Mailbox::fresh(rt.alloc())?;
        let mut cells = [0; 32];
        check_enrol(
            &rt,
            &mut mailboxes,
            &[give(1, 0, 4), take(1, 1, 4), take(2, 0, 5)],
        );
        check_enrol(&rt, &mut mailboxes, &[take(2, 1, 16), give(2, 2, 255)]);
        check_commit(
            &rt,
            &mut mailboxes,
            &mut cells,
            &[(give(1, 0, 4), 7, None), (take(3, 0, 4), 0, None)],
        );
        let stands = [
            (take(1, 1, 4), Alone),
            (take(2, 0, 5), Closed),
            (take(2, 1, 16), Closed),
            (give(2, 2, 255), Alone),
            (take(3, 0, 4), Closed),
        ];
        check_stand(&rt, &mailboxes, &stands);
        mailboxes.withdraw(1);
        check_stand(&rt, &mailboxes, &[(take(1, 1, 4), Closed)]);
        check_enrol(&rt, &mut mailboxes, &[take(3, 0, 4)]);
        check_commit(
            &rt,
            &mut mailboxes,
            &mut cells,
            &[(take(3, 0, 4), 0, Some(7)), (take(3, 0, 4), 0, None)],
        );
        Ok(())
    }

    // Empty, then full: set once, and every take gets the message.
    #[test]
    fn ivar_set(rt: HostRuntime) -> Result<(), Fail> {
        let mut ivars = Ivar::fresh(rt.alloc())?;
        let mut cells = [0; 32];
        check_enrol(&rt, &mut ivars, &[GIVE, TAKE]);
        check_stand(&rt, &ivars, &[(GIVE, Alone), (TAKE, Closed)]);
        check_commit(
            &rt,
            &mut ivars,
            &mut cells,
            &[(TAKE, 0, None), (GIVE, 7, None), (GIVE, 8, None)],
        );
        check_stand(&rt, &ivars, &[(GIVE, Closed), (TAKE, Alone)]);
        check_commit(
            &rt,
            &mut ivars,
            &mut cells,
            &[(TAKE, 0, Some(7)), (TAKE, 0, Some(7)), (GIVE, 8, None)],
        );
        check_stand(&rt, &ivars, &[(GIVE, Closed), (TAKE, Alone)]);
        Ok(())
    }

    // Empty, full, and empty again, past the last cell.
    #[test]
    fn mvar_set(rt: HostRuntime) -> Result<(), Fail> {
        let mut mvars = Mvar::fresh(rt.alloc())?;
        let mut cells = [0; 32];
        check_enrol(&rt, &mut mvars, &[GIVE, TAKE]);
        for message in 0..40 {
            check_stand(&rt, &mvars, &[(GIVE, Alone), (TAKE, Closed)]);
            check_commit(
                &rt,
                &mut mvars,
                &mut cells,
                &[(TAKE, 0, None), (GIVE, message, None), (GIVE, 99, None)],
            );
            check_stand(&rt, &mvars, &[(GIVE, Closed), (TAKE, Alone)]);
            check_commit(
                &rt,
                &mut mvars,
                &mut cells,
                &[(TAKE, 0, Some(message)), (TAKE, 0, None)],
            );
        }
        Ok(())
    }
}

#[cfg(test)]
mod timeout_tests {
    use crate::examples::{check_commit, check_enrol, check_stand, due, give};
    use kinds::kind::{Kind, soonest_closed};
    use kinds::timeout::Timeout;
    use rules::offer::Reply::{Alone, Closed};
    use std::test::Fail;

    const LAST: u64 = 4294967295;

    // Due now, one before and one after; a give is never open.
    #[test]
    fn due_times(rt: HostRuntime) -> Result<(), Fail> {
        let mut timeouts = Timeout::fresh(rt.alloc())?;
        let (before, now, after) = (due(1, 1, 999), due(1, 2, 1000), due(1, 3, 1001));
        check_enrol(
            &rt,
            &mut timeouts,
            &[due(1, 0, 0), before, now, after, give(2, 0, 0)],
        );
        check_stand(
            &rt,
            &timeouts,
            &[(due(1, 0, 0), Alone), (before, Closed), (now, Closed)],
        );
        timeouts.tell(1000);
        check_stand(
            &rt,
            &timeouts,
            &[(before, Alone), (now, Alone), (after, Closed)],
        );
        check_stand(
            &rt,
            &timeouts,
            &[
                (give(2, 0, 0), Closed),
                (due(1, 3, 1000), Closed),
                (due(3, 0, 9), Closed),
            ],
        );
        let mut cells = [0; 32];
        check_commit(
            &rt,
            &mut timeouts,
            &mut cells,
            &[(now, 9, None), (after, 9, None)],
        );
        assert_eq!(rt; cells, [0; 32]);
        check_stand(&rt, &timeouts, &[(now, Alone), (after, Closed)]);
        Ok(())
    }

    // At the last time that the clock can show, what is due after it is closed.
    #[test]
    fn last_time(rt: HostRuntime) -> Result<(), Fail> {
        let mut timeouts = Timeout::fresh(rt.alloc())?;
        let (last, after, never) = (due(1, 0, LAST), due(1, 1, LAST + 1), due(1, 2, u64::MAX));
        check_enrol(&rt, &mut timeouts, &[never, last, after]);
        timeouts.tell(4294967294);
        check_stand(
            &rt,
            &timeouts,
            &[(last, Closed), (after, Closed), (never, Closed)],
        );
        assert_eq!(rt; soonest_closed(&timeouts), Some(LAST));
        timeouts.tell(4294967295);
        check_stand(
            &rt,
            &timeouts,
            &[(last, Alone), (after, Closed), (never, Closed)],
        );
        assert_eq!(rt; soonest_closed(&timeouts), Some(LAST + 1));
        Ok(())
    }

    // None, one and several that are closed; the open ones are passed over.
    #[test]
    fn soonest(rt: HostRuntime) -> Result<(), Fail> {
        let mut timeouts = Timeout::fresh(rt.alloc())?;
        assert_eq!(rt; soonest_closed(&timeouts), None);
        check_enrol(&rt, &mut timeouts, &[due(1, 0, 50)]);
        assert_eq!(rt; soonest_closed(&timeouts), Some(50));
        check_enrol(
            &rt,
            &mut timeouts,
            &[due(1, 1, 70), due(2, 0, 20), due(2, 1, 60)],
        );
        for (ms, want) in [
            (19, Some(20)),
            (20, Some(50)),
            (59, Some(60)),
            (69, Some(70)),
            (70, None),
        ] {
            timeouts.tell(ms);
            assert_eq!(rt; soonest_closed(&timeouts), want);
        }
        timeouts.tell(59);
        timeouts.withdraw(2);
        assert_eq!(rt; soonest_closed(&timeouts), Some(70));
        Ok(())
    }
}

#[cfg(test)]
mod rule_tests {
    use crate::examples::{check_enrol, check_stand, due, give, take, with};
    use kinds::bare::{Bare, BareRule};
    use kinds::channel::ChannelRule;
    use kinds::kind::{Kind, soonest_closed};
    use kinds::timeout::TimeoutRule;
    use rules::offer::Reply::{Alone, Closed};
    use rules::offer::{Offer, Reply, Side};
    use std::test::Fail;

    // Timeouts by a rule that does not ask whether an offer waits.
    struct DueRule;

    impl BareRule for DueRule {
        ghost rules = { timeout };

        ghost lawful = { delivered_lawful most_held (lit< tt) TimeoutKind };

        ghost bare = { refl };

        fn reply(_waiting: &[Offer], clock: u32, o: Offer) -> Reply {
            match o.side {
                Side::Take if o.due <= u64::from(clock) => Alone,
                _ => Closed,
            }
        }
    }

    // A kind is made of such a rule too, in which an offer that does not wait is closed.
    #[test]
    fn rule_of_waiting(rt: HostRuntime) -> Result<(), Fail> {
        let mut timeouts: Bare<DueRule> = Bare::fresh(rt.alloc())?;
        let (now, after) = (due(1, 0, 1000), due(1, 1, 1001));
        timeouts.tell(1000);
        check_stand(&rt, &timeouts, &[(now, Closed), (after, Closed)]);
        check_enrol(&rt, &mut timeouts, &[after, now, give(2, 0, 0)]);
        let stands = [
            (now, Alone),
            (after, Closed),
            (give(2, 0, 0), Closed),
            (due(1, 0, 999), Closed),
            (due(2, 0, 1000), Closed),
        ];
        check_stand(&rt, &timeouts, &stands);
        assert_eq!(rt; soonest_closed(&timeouts), Some(0));
        timeouts.withdraw(2);
        assert_eq!(rt; soonest_closed(&timeouts), Some(1001));
        timeouts.withdraw(1);
        check_stand(&rt, &timeouts, &[(now, Closed)]);
        Ok(())
    }

    // To an offer that waits, the delivered rules reply the same either way.
    #[test]
    fn replies(rt: HostRuntime) {
        let waiting = [give(5, 0, 2), take(6, 1, 2), due(7, 0, 1000)];
        let stands = [
            (give(5, 0, 2), with(6, 1)),
            (take(6, 1, 2), with(5, 0)),
            (due(7, 0, 1000), Closed),
        ];
        for (o, want) in stands {
            assert_eq!(rt; ChannelRule::reply(&waiting, 1000, o), want);
            assert_eq!(rt; ChannelRule::reply_to_any(&waiting, 1000, o), want);
        }
        for (clock, want) in [(999, Closed), (1000, Alone), (1001, Alone)] {
            assert_eq!(rt; TimeoutRule::reply(&waiting, clock, due(7, 0, 1000)), want);
            assert_eq!(rt;
                TimeoutRule::reply_to_any(&waiting, clock, due(7, 0, 1000)),
                want
            );
            assert_eq!(rt; DueRule::reply(&waiting, clock, due(7, 0, 1000)), want);
            assert_eq!(rt;
                DueRule::reply_to_any(&waiting, clock, due(7, 0, 1000)),
                want
            );
            assert_eq!(rt;
                DueRule::reply_to_any(&waiting, clock, due(8, 0, 0)),
                Closed
            );
        }
    }
}

#[cfg(test)]
mod store_tests {
    use crate::examples::{due, give, take};
    use board::board::{Board, Five};
    use board::store::{STORE_SIZE, commit, register, set_register};
    use grammar::words::PortKind;
    use kinds::channel::Channel;
    use kinds::kind::Kind;
    use kinds::mailbox::Mailbox;
    use kinds::timeout::Timeout;
    use kinds::variable::{Ivar, Mvar};
    use message::kind::Message;
    use message::literal::Literal;
    use message::ticket::Ticket;
    use message::weight::Weight;
    use rules::kind::BaseKind;
    use rules::offer::Offer;
    use std::alloc::Global;
    use std::process::Abort;
    use std::test::Fail;

    type Kinds = Five<Channel, Mailbox, Ivar, Mvar, Timeout>;

    const MAILBOX: BaseKind = BaseKind::Port(PortKind::Mailbox);

    // The store's cells and some more.
    const CELLS: usize = 600;

    // A message as it is written.
    fn shown<M: Message>(message: M) -> Result<[u8; 32], Fail> {
        let mut page = [b'.'; 32];
        message.write(&mut page, 0)?;
        Ok(page)
    }

    // Writes a different message into each cell.
    fn fill<M: Message>(cells: &mut [M]) {
        let mut next = M::blank();
        for cell in cells.iter_mut() {
            *cell = next;
            next = next.add(1);
        }
    }

    // The cells are as before, but for one.
    fn check_cells<M: Message>(
        rt: &impl Abort,
        cells: &[M],
        before: &[M],
        cell: usize,
        message: M,
    ) -> Result<(), Fail> {
        for (i, (m, b)) in cells.iter().zip(before).enumerate() {
            let want = if i == cell { message } else { *b };
            assert_eq!(rt; shown(*m)?, shown(want)?);
        }
        Ok(())
    }

    // Commits an offer of a mailbox, at a port that a script can have.
    fn settle<M: Message>(board: &mut Kinds, o: Offer, message: M, cells: &mut [M]) -> Option<M> {
        if o.port < 16 && STORE_SIZE <= cells.len() {
            commit(board, MAILBOX, o, message, cells)
        } else {
            None
        }
    }

    // A commit writes one cell at most, and that of the offer's port.
    fn check_port<M: Message>(
        rt: &impl Abort,
        board: &mut Kinds,
        port: u8,
        cell: usize,
        cells: &mut [M],
        before: &[M],
    ) -> Result<(), Fail> {
        let message = M::blank().add(-5);
        let (giver, taker) = (give(1, port, port), take(2, port, port));
        assert!(rt; board.enrol(MAILBOX, giver) && board.enrol(MAILBOX, taker));
        assert!(rt; settle(board, giver, message, cells).is_none());
        check_cells(rt, cells, before, cell, message)?;
        let got = settle(board, taker, M::blank(), cells).ok_or("nothing held")?;
        assert_eq!(rt; shown(got)?, shown(message)?);
        check_cells(rt, cells, before, cell, message)
    }

    fn check_ports<M: Message>(
        rt: &impl Abort,
        heap: Global,
        cells: &mut [M],
        before: &mut [M],
    ) -> Result<(), Fail> {
        let mut board = Kinds::fresh(heap)?;
        fill(before);
        for (port, cell) in [(0, 64), (1, 96), (15, 544)] {
            fill(cells);
            check_port(rt, &mut board, port, cell, cells, before)?;
        }
        Ok(())
    }

    #[test]
    fn commits(rt: HostRuntime) -> Result<(), Fail> {
        assert_eq!(rt; STORE_SIZE, 576);
        let (weight, ticket) = (Weight::blank(), Ticket::blank());
        check_ports(&rt, rt.alloc(), &mut [weight; CELLS], &mut [weight; CELLS])?;
        check_ports(&rt, rt.alloc(), &mut [ticket; CELLS], &mut [ticket; CELLS])
    }

    #[test]
    fn registers(rt: HostRuntime) {
        let mut cells = [0u32; CELLS];
        set_register(&mut cells, 0, 3);
        set_register(&mut cells, 63, 4);
        assert_eq!(rt; (register(&cells, 0), register(&cells, 1)), (3, 0));
        assert_eq!(rt; (register(&cells, 62), register(&cells, 63)), (0, 4));
        assert_eq!(rt; register(&cells, 64), 0);
    }

    // Enrols the offer at each kind, or sees it refused there.
    fn check_each(rt: &impl Abort, board: &mut Kinds, o: Offer, accepted: bool) {
        let kinds = [
            BaseKind::Port(PortKind::Channel),
            BaseKind::Port(PortKind::Mailbox),
            BaseKind::Port(PortKind::Ivar),
            BaseKind::Port(PortKind::Mvar),
            BaseKind::Timeout,
        ];
        for kind in kinds {
            assert_eq!(rt; board.enrol(kind, o), accepted);
        }
    }

    // Each kind has its own offers, and all are told the time.
    #[test]
    fn kinds_apart(rt: HostRuntime) -> Result<(), Fail> {
        let mut board = Kinds::fresh(rt.alloc())?;
        assert_eq!(rt; board.soonest_due(), None);
        check_each(&rt, &mut board, due(1, 0, 30), true);
        check_each(&rt, &mut board, due(2, 0, 20), true);
        check_each(&rt, &mut board, due(1, 0, 40), false);
        assert_eq!(rt; board.soonest_due(), Some(20));
        board.tell(20);
        assert_eq!(rt; board.soonest_due(), Some(30));
        board.withdraw(1);
        assert_eq!(rt; board.soonest_due(), None);
        check_each(&rt, &mut board, due(2, 0, 20), false);
        check_each(&rt, &mut board, due(1, 0, 30), true);
        Ok(())
    }
}
