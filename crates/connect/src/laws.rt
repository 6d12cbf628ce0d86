// Laws of a step, each named by the contract of a function that does nothing.
ghost use Rattle.std.specs.Prelude.{ℕ, ◌≡◌, true, false, List, Option, Some, None};
ghost use Rattle.bus_trace.specs.declared.Row.{Row};
ghost use Rattle.bus_lines.specs.declared.Stage.{Stage};
ghost use Rattle.bus_trace.specs.LineSet.{LineSet, none};
ghost use Rattle.bus_lines.specs.Stage.{stage};
ghost use Rattle.bus_trace.specs.Trace.{drives};
ghost use Rattle.reaction_model.specs.declared.due.Myself.{Myself};
ghost use Rattle.reaction_model.specs.declared.due.Want.{Want};
ghost use Rattle.reaction_model.specs.declared.sight.Sight.{Sight};
ghost use Rattle.reaction_model.specs.Reactions.{due_at, fault_due};
ghost use Rattle.reaction_model.specs.Linking.{sample_time};
ghost use Rattle.connect.specs.declared.states.Link.{Link};
ghost use Rattle.connect.specs.Devices.{myself_at};
ghost use Rattle.connect.specs.Links.{myself, next_link, linked_peer, peer_at};
ghost use Rattle.connect.specs.Steps.{step_due, is_asked, link_in};

/// A called device answers its sample of the IDs by BSY. Where a fault strikes the sample nothing but the fault row
/// is due, and it does not answer. Everywhere else no fault changes what is due (6.1.3, 6.1.4).
pub fn samples_are_answered()
    ensures answered { (v : Sight) (me : Myself) (w : Want) → is_asked me v.stage ≡ true
        → step_due v me w None ≡ due_at (sample_time v me) (record none { bsy = true }) }
    ensures struck { (v : Sight) (me : Myself) (w : Want) (bit : ℕ) → is_asked me v.stage ≡ true
        → step_due v me w (Some bit) ≡ fault_due (sample_time v me) bit }
    ensures elsewhere { (v : Sight) (me : Myself) (w : Want) (flip : Option ℕ) → is_asked me v.stage ≡ false
        → step_due v me w flip ≡ step_due v me w None }
{}

/// A state keeps who the device is, and drives what its rows drive, since then; without a row it is what it was.
pub fn states_drive_their_rows()
    ensures row { (link : Link) (now : ℕ) (s : Stage) (lines : LineSet)
        → myself (next_link link now s (Some lines)) ≡ myself_at (myself link) lines now }
    ensures still { (link : Link) (now : ℕ) (s : Stage) → next_link link now s None ≡ link }
    ensures shown { (rows : List Row) (link : Link)
        → myself (link_in rows link) ≡ record (myself link) { own = drives rows (myself link).dev } }
{}

/// A device is linked exactly where a connection stands of which it is an end, to the other end of it, as the target
/// of it or as its initiator.
pub fn linked_devices_are_ends()
    ensures { (rows : List Row) (link : Link)
        → linked_peer (link_in rows link) ≡ peer_at (myself link).dev (stage rows) }
{}
