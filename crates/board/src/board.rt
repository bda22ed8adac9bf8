ghost use Rattle.std.specs.Prelude.{◌≡◌, ℕ, ◌<◌, ◌≢◌, length, IfOk};
ghost use Rattle.grammar.specs.declared.words.PortKind.TheVariants.{Channel, Mailbox, Ivar, Mvar};
ghost use Rattle.rules.specs.declared.kind.BaseKind.{BaseKind};
ghost use Rattle.rules.specs.declared.kind.BaseKind.TheVariants.{Port, Timeout};
ghost use Rattle.rules.specs.Limits.{most_ports, most_held};
ghost use Rattle.rules.specs.Kinds.{Meaning, Kind as Rules, Lawful, accepts, enrolled, withdrawn, told, polled};
ghost use Rattle.kinds.specs.Stores.{Fresh, Within, Committed};
ghost use Rattle.rules.specs.Able.{soonest_closed};

use grammar::words::PortKind;
use kinds::kind::{Kind, soonest_closed};
use rules::kind::BaseKind;
use rules::offer::{Offer, Reply};
use std::alloc::{AllocError, Global};

// The base event kinds of a run, as one.
pub trait Board: Sized {
    ghost meaning: { Self → BaseKind → Meaning ℕ };

    ghost rules: { BaseKind → Rules };

    // Each of them is a kind.
    fn lawful(&self)
        ensures lawful { (c : BaseKind) → Lawful most_held (rules c) }
        ensures within { (c : BaseKind) → Within (meaning self.now c) };

    fn fresh(heap: Global) -> Result<Self, AllocError>
        ensures { IfOk result (λ s. (c : BaseKind) → Fresh (meaning s c)) };

    fn enrol(&mut self, kind: BaseKind, o: Offer) -> bool
        ensures answer { result ≡ accepts (meaning self.old kind).offers o }
        ensures here { meaning self.new kind ≡ enrolled o (meaning self.old kind) }
        ensures others { (c : BaseKind) → c ≢ kind → meaning self.new c ≡ meaning self.old c };

    fn withdraw(&mut self, sync: u32)
        ensures { (c : BaseKind) → meaning self.new c ≡ withdrawn sync (meaning self.old c) };

    fn tell(&mut self, ms: u32)
        ensures { (c : BaseKind) → meaning self.new c ≡ told ms (meaning self.old c) };

    fn poll(&self, kind: BaseKind, o: Offer) -> Reply
        ensures { result ≡ polled (rules kind) (meaning self.now kind) o };

    fn commit<M: Copy>(
        &mut self,
        kind: BaseKind,
        o: Offer,
        message: M,
        cells: &mut [M],
    ) -> Option<M>
        requires port { o.port < most_ports }
        requires cells { length cells.old ≡ most_held }
        ensures here { Committed (rules kind) o message (meaning self.old kind) cells.old (meaning self.new kind) cells.new result }
        ensures others { (c : BaseKind) → c ≢ kind → meaning self.new c ≡ meaning self.old c };

    // The soonest due time of the timeouts that wait and are not open.
    fn soonest_due(&self) -> Option<u64>
        ensures { result ≡ soonest_closed (rules Timeout) (meaning self.now Timeout) (meaning self.now Timeout).offers };
}

// Any five kinds. Each is a type of its own, and commit is generic in the message, so no `dyn` can
// stand for them: what reaches one of them matches.
#[derive(Drop)]
pub struct Five<C, B, I, V, T> {
    channels: C,
    mailboxes: B,
    ivars: I,
    mvars: V,
    timeouts: T,
}

impl<C: Kind + Drop, B: Kind + Drop, I: Kind + Drop, V: Kind + Drop, T: Kind + Drop> Board
    for Five<C, B, I, V, T> {
    ghost meaning = { λ s c. elim c [ Port k ↦ elim k [ Channel ↦ C.Kind.meaning s.channels | Mailbox ↦ B.Kind.meaning s.mailboxes | Ivar ↦ I.Kind.meaning s.ivars | Mvar ↦ V.Kind.meaning s.mvars ] | Timeout ↦ T.Kind.meaning s.timeouts ] };

    ghost rules = { λ c. elim c [ Port k ↦ elim k [ Channel ↦ C.Kind.rules | Mailbox ↦ B.Kind.rules | Ivar ↦ I.Kind.rules | Mvar ↦ V.Kind.rules ] | Timeout ↦ T.Kind.rules ] };

    fn lawful(&self) {}

    fn fresh(heap: Global) -> Result<Self, AllocError> {
        let channels = C::fresh(heap)?;
        let mailboxes = B::fresh(heap)?;
        let ivars = I::fresh(heap)?;
        let mvars = V::fresh(heap)?;
        let timeouts = T::fresh(heap)?;
        Ok(Five {
            channels,
            mailboxes,
            ivars,
            mvars,
            timeouts,
        })
    }

    fn enrol(&mut self, kind: BaseKind, o: Offer) -> bool {
        match kind {
            BaseKind::Port(PortKind::Channel) => self.channels.enrol(o),
            BaseKind::Port(PortKind::Mailbox) => self.mailboxes.enrol(o),
            BaseKind::Port(PortKind::Ivar) => self.ivars.enrol(o),
            BaseKind::Port(PortKind::Mvar) => self.mvars.enrol(o),
            BaseKind::Timeout => self.timeouts.enrol(o),
        }
    }

    fn withdraw(&mut self, sync: u32) {
        self.channels.withdraw(sync);
        self.mailboxes.withdraw(sync);
        self.ivars.withdraw(sync);
        self.mvars.withdraw(sync);
        self.timeouts.withdraw(sync);
    }

    fn tell(&mut self, ms: u32) {
        self.channels.tell(ms);
        self.mailboxes.tell(ms);
        self.ivars.tell(ms);
        self.mvars.tell(ms);
        self.timeouts.tell(ms);
    }

    fn poll(&self, kind: BaseKind, o: Offer) -> Reply {
        match kind {
            BaseKind::Port(PortKind::Channel) => self.channels.poll(o),
            BaseKind::Port(PortKind::Mailbox) => self.mailboxes.poll(o),
            BaseKind::Port(PortKind::Ivar) => self.ivars.poll(o),
            BaseKind::Port(PortKind::Mvar) => self.mvars.poll(o),
            BaseKind::Timeout => self.timeouts.poll(o),
        }
    }

    fn commit<M: Copy>(
        &mut self,
        kind: BaseKind,
        o: Offer,
        message: M,
        cells: &mut [M],
    ) -> Option<M> {
        match kind {
            BaseKind::Port(PortKind::Channel) => self.channels.commit(o, message, cells),
            BaseKind::Port(PortKind::Mailbox) => self.mailboxes.commit(o, message, cells),
            BaseKind::Port(PortKind::Ivar) => self.ivars.commit(o, message, cells),
            BaseKind::Port(PortKind::Mvar) => self.mvars.commit(o, message, cells),
            BaseKind::Timeout => self.timeouts.commit(o, message, cells),
        }
    }

    fn soonest_due(&self) -> Option<u64> {
        soonest_closed(&self.timeouts)
    }
}
