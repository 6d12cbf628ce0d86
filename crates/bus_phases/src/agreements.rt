//! The agreements of all pairs of devices.
ghost use Rattle.std.specs.Prelude.{ℕ, ◌≡◌, ◌<◌, ◌+◌, ◌*◌, ◌==◌, ◌&&◌, if◌then◌else◌};
ghost use Rattle.bus_trace.specs.declared.agreements.Agreement.{Agreement};
ghost use Rattle.bus_phases.specs.Dialogue.{asynchronous, closed_agreement, closed_agreement_by};
ghost use Rattle.bus_phases.specs.Tables.{AreAgreements};

use crate::spoken::{Spoken, asynchronous};
use bus_trace::{Agreement, Connection, Lines, ScsiId};

/// The agreement of each pair of an initiator and a target.
#[repr(C)]
#[derive(Clone, Copy)]
pub struct Agreements {
    periods: [u8; 64],
    offsets: [u8; 64],
}

// Where a pair stands.
fn place(initiator: ScsiId, target: ScsiId) -> usize
    ensures exact { result ≡ initiator * 8 + target }
    ensures inside { result < 64 }
{
    initiator.get() as usize * 8 + target.get() as usize
}

impl Agreements {
    ghost use Rattle.bus_phases.specs.Tables.{AreAgreements};

    /// All asynchronous.
    pub fn new() -> Agreements
        ensures { AreAgreements (λ i t. asynchronous) result }
    {
        Agreements {
            periods: [0; 64],
            offsets: [0; 64],
        }
    }

    /// The agreement of this pair.
    pub fn of(&self, initiator: ScsiId, target: ScsiId) -> Agreement
        ensures { (agreed : ℕ → ℕ → Agreement) → AreAgreements agreed self.now → result ≡ agreed initiator target }
    {
        let at = place(initiator, target);
        Agreement {
            period: self.periods[at],
            offset: self.offsets[at],
        }
    }

    /// This pair agrees on this.
    pub fn set(&mut self, initiator: ScsiId, target: ScsiId, agreement: Agreement)
        ensures { (agreed : ℕ → ℕ → Agreement) → AreAgreements agreed self.old
            → AreAgreements (λ i t. if i == initiator && t == target then agreement else agreed i t) self.new }
    {
        let at = place(initiator, target);
        self.periods[at] = agreement.period;
        self.offsets[at] = agreement.offset;
    }

    // BUS DEVICE RESET ends the agreements of this target.
    fn reset(&mut self, target: ScsiId)
        ensures { (agreed : ℕ → ℕ → Agreement) → AreAgreements agreed self.old
            → AreAgreements (λ i t. if t == target then asynchronous else agreed i t) self.new }
    {
        for initiator in 0..8u8 {
            self.set(ScsiId::new(initiator), target, asynchronous());
        }
    }

    // The same, where it comes now.
    fn reset_if(&mut self, now: bool, target: ScsiId)
        ensures { (agreed : ℕ → ℕ → Agreement) → AreAgreements agreed self.old
            → AreAgreements (λ i t. if t == target && now then asynchronous else agreed i t) self.new }
    {
        if now {
            self.reset(target);
        }
    }

    /// A connection of these two ends, under this agreement, and after BUS DEVICE RESET where it came.
    pub fn close(&mut self, connection: Connection, spoken: Spoken)
        ensures { (agreed : ℕ → ℕ → Agreement) → AreAgreements agreed self.old
            → AreAgreements (λ i t. closed_agreement connection spoken i t (agreed i t)) self.new }
    {
        self.reset_if(spoken.device_reset, connection.target);
        self.set(connection.initiator, connection.target, spoken.agreement);
    }
}

/// The agreements after a row with this bus, before which this connection stood and its messages said this.
pub fn agree(agreed: &mut Agreements, connection: Option<Connection>, spoken: Spoken, bus: Lines)
    ensures { (f : ℕ → ℕ → Agreement) → AreAgreements f agreed.old
        → AreAgreements (λ i t. if bus.rst then asynchronous else closed_agreement_by connection bus.bsy spoken i t
        (f i t)) agreed.new }
{
    if bus.rst() {
        *agreed = Agreements::new();
        return;
    }
    let Some(connection) = connection else {
        return;
    };
    if bus.bsy() {
        return;
    }
    agreed.close(connection, spoken);
}
