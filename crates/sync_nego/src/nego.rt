//! What one end keeps of its agreement with another (ANSI X3.131-1994, 6.6.21).
ghost use Rattle.std.specs.Prelude.{◌≡◌, true, None};
ghost use Rattle.bus_trace.specs.Agreements.{same_agreement};
ghost use Rattle.sync_nego.specs.Negotiation.{unsettled, offers, offer_out, offer_in, answer_to, settled, cleared, renewed};

use bus_trace::{Agreement, UNLIMITED_OFFSET};
use msg_grammar::{MsgIn, MsgOut};
use std::marker::Model;

const ASYNCHRONOUS: Agreement = Agreement {
    period: 0,
    offset: 0,
};

/// What an end keeps of its agreement with another.
#[derive(Drop)]
pub struct Nego {
    own: Agreement,
    agreed: Agreement,
    may_offer: bool,
}

impl Model for Nego {
    ghost use Rattle.std.specs.Prelude.{◌≡◌, true};
    ghost use Rattle.sync_nego.specs.Negotiation.{Negotiation};

    ghost Value = { Negotiation };

    ghost view = { λ n. record { own = n.own; agreed = n.agreed; may_offer = n.may_offer } };

    // Nothing is agreed on before the first negotiation.
    ghost invariant = { λ n. n.may_offer ≡ true → n.agreed.offset ≡ 0 };
}

impl Nego {
    /// An end that offers `own`, before any negotiation; a period of 0 offers nothing.
    pub fn new(own: Agreement) -> Nego
        ensures { result ≡ unsettled own }
    {
        Nego {
            own,
            agreed: ASYNCHRONOUS,
            may_offer: true,
        }
    }

    // Whether there is a request to make.
    fn offers(&self) -> bool
        ensures { result ≡ offers self.now }
    {
        self.may_offer && self.own.period > 0
    }

    /// The request that an initiator makes, none where its own period is 0, or where something was settled or cleared
    /// since the start and since the last `again`.
    pub fn offer(&self) -> Option<MsgOut>
        ensures { result ≡ offer_out self.now }
    {
        if self.offers() {
            Some(MsgOut::Sdtr(self.own))
        } else {
            None
        }
    }

    /// The request that a target makes, by the same test.
    pub fn request(&self) -> Option<MsgIn>
        ensures { result ≡ offer_in self.now }
    {
        if self.offers() {
            Some(MsgIn::Sdtr(self.own))
        } else {
            None
        }
    }

    /// The answer of an end that would offer `own` to the request `heard`: the larger period and the smaller
    /// offset; none, which is MESSAGE REJECT, where the offset is unlimited.
    pub fn answer(own: &Agreement, heard: &Agreement) -> Option<Agreement>
        ensures { result ≡ answer_to own.now heard.now }
    {
        if heard.offset == UNLIMITED_OFFSET {
            return None;
        }
        if own.period == 0 {
            return Some(Agreement {
                period: heard.period,
                offset: 0,
            });
        }
        Some(Agreement {
            period: own.period.max(heard.period),
            offset: own.offset.min(heard.offset),
        })
    }

    /// A negotiation ends with this answer, or without one: by MESSAGE REJECT, or because its connection ended.
    pub fn settle(&mut self, heard: Option<Agreement>)
        ensures exact { self.new ≡ settled self.old heard }
        ensures lapsed { self.old.may_offer ≡ true → heard ≡ None
            → same_agreement self.new.agreed self.old.agreed ≡ true }
    {
        self.agreed = heard.unwrap_or(ASYNCHRONOUS);
        self.may_offer = false;
    }

    /// The agreement is void, and no other is offered.
    pub fn clear(&mut self)
        ensures { self.new ≡ cleared self.old }
    {
        self.settle(None);
    }

    /// The agreement is void, and another may be offered.
    pub fn again(&mut self)
        ensures { self.new ≡ renewed self.old }
    {
        self.agreed = ASYNCHRONOUS;
        self.may_offer = true;
    }

    /// What the two ends have agreed on; an offset of 0 is asynchronous data transfer, whatever the period.
    pub fn agreed(&self) -> Agreement
        ensures { result ≡ self.now.agreed }
    {
        self.agreed
    }
}
