//! The stage of the bus (ANSI X3.131-1994, 6.1 and 6.2.2).
ghost use Rattle.std.specs.Prelude.{ℕ, ◌≡◌, Some};
ghost use Rattle.bus_lines.specs.Stage.{call_stage};
ghost use Rattle.bus_lines.specs.Timely.{IsCallBefore, IsStageBefore};

use bus_trace::the_bus_base::Ns;
use bus_trace::{Arbitration, Call, Calling, Connection};

/// What goes on on the bus. RST goes before all else (6.2.2), and a connection before the rest; times are in ns.
#[derive(Clone, Copy)]
pub enum Stage {
    /// BUS FREE, since this time (6.1.1).
    OnFreeBus(Ns),
    /// ARBITRATION: since when the bus had been free before it, and its first entry (6.1.2).
    InArbitration(Arbitration),
    /// SELECTION or RESELECTION, while SEL is true and no answer has come: who calls, and whom (6.1.3, 6.1.4).
    InCalling(Call),
    /// The same after the answer of the called device, and when it last raised BSY.
    InAnswer(Call, Calling, Ns),
    /// An initiator and a target are connected (6.1.5).
    InConnection(Connection),
    /// RST is true, since this time (6.2.2).
    InReset(Ns),
}

/// The stage while SEL is true.
pub fn call_stage(call: Call) -> Stage
    ensures exact { result ≡ call_stage call call.calling }
    ensures timely { (end : ℕ) → IsCallBefore end (Some call) → IsStageBefore end result }
{
    let calling = call.calling;
    let Some(calling) = calling else {
        return Stage::InCalling(call);
    };
    let answered = calling.answered;
    match answered {
        None => Stage::InCalling(call),
        Some(answered) => Stage::InAnswer(call, calling, answered),
    }
}
