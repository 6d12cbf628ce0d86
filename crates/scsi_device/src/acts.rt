// What a device does at a moment.
ghost use Rattle.std.specs.Prelude.{◌≡◌};
ghost use Rattle.scsi_device.specs.Acts.{act_of};

use bus_base::Ns;
use bus_trace::Kind;
use reaction_model::Due;

/// What a device does at a moment: a row that is due by then, or nothing before the moment at which its next one is.
#[derive(Clone, Copy, Debug)]
pub struct Act {
    /// The row that it makes now.
    pub row: Option<Kind>,
    /// When its next row is due, in ns, where one is due later.
    pub wake: Option<Ns>,
}

impl Act {
    /// At this moment, in ns, of a device that is due to do this next.
    pub fn of(due: Option<Due>, now: Ns) -> Act
        ensures { result ≡ act_of due now }
    {
        match due {
            Some(due) if due.time <= now => Act {
                row: Some(due.kind),
                wake: None,
            },
            Some(due) => Act {
                row: None,
                wake: Some(due.time),
            },
            None => Act {
                row: None,
                wake: None,
            },
        }
    }
}
