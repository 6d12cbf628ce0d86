//! A unit is its seat of the plain disk array: what it executes, what it keeps, and what each of its calls does.
ghost use Rattle.std.specs.Prelude.{◌≡◌, ◌<◌, ℕ, List, [], ◌∷◌, ◌++◌, length, Option, Some, None, is_some, Bool, true, false, ◌&&◌, ◌==◌, if◌then◌else◌};
ghost use Rattle.bus_base.specs.declared.AbortKind.TheVariants as aborts;
ghost use Rattle.bus_base.specs.declared.ProcId.{ProcId};
ghost use Rattle.bus_base.specs.declared.events.Pick.{Pick};
ghost use Rattle.cdb_codec.specs.declared.Sense.{Sense};
ghost use Rattle.cdb_codec.specs.Cdb.{command_of};
ghost use Rattle.array_model.specs.Contents.{Contents, is_reeled};
ghost use Rattle.array_model.specs.Execution.{Execution, Reply, execution, is_request_sense, queue_full, tape_contents};
ghost use Rattle.array_model.specs.Order.{entry_of, tag_number, class_of};
ghost use Rattle.array_model.specs.Processes.{Process};
ghost use Rattle.array_model.specs.Seats.{Seat, seat_of, settled_seat, is_any_held, seat_with_guest, seat_with_reply, seat_with_execution, seat_without, seat_after_status, seat_after_abort, seat_after_abort_tag, seat_after_clear_queue, seat_after_reset, seat_after_accept, seat_after_refuse, seat_after_run, seat_after_failure, seat_after_end, seat_after_loss, seat_after_aborted, running_at, context_of, is_initiator, unit_with_choice, unit_with_reply, unit_with_contents, unit_kept, is_told as is_told_at};
ghost use Rattle.array_model.specs.Steps.{unit_processes, unit_without, has_tag};
ghost use Rattle.array_model.specs.TapeExecution.{Tape};
ghost use Rattle.array_model.specs.Tapes.{tape_after, tape_done};
ghost use Rattle.array_model.specs.Units.{UnitState, contents_at_start, starting_array, starting_unit, guest_at};
ghost use Rattle.array_model.specs.declared.entries.Entry.{Entry};
ghost use Rattle.array_model.specs.scenario.specs.Value.{ScenarioValue};
ghost use Rattle.array_model.specs.scenario.specs.declared.value.HostDef.{HostDef};
ghost use Rattle.array_model.specs.scenario.specs.declared.value.UnitDef.{UnitDef};
ghost use Rattle.tag_queue.specs.Queue.{is_held, has_key};
ghost use Rattle.tag_queue.specs.declared.those.Those.TheVariants as those;
ghost use Rattle.disk_unit.specs.AtSeats.{IsUnitAt};
ghost use Rattle.disk_unit.specs.Books.{UnitBooks, IsCleared, is_told, block_at, attention_at, initiator_at, books_after_end, empty_books, books_with, books_after_choice, books_without, books_after_abort, books_after_abort_tag, books_after_reset};
ghost use Rattle.disk_unit.specs.Disk.{disk_execution};
ghost use Rattle.disk_unit.specs.Held.{held_execution, held_reply, held_extent};
ghost use Rattle.disk_unit.specs.Keeping.{IsKeptAt, books_after_status};
ghost use Rattle.disk_unit.specs.LiveCommands.{LiveCommand, has_process, process_under, live_but, has_this_key, is_one_of};
ghost use Rattle.disk_unit.specs.Plans.{sense_if};
ghost use Rattle.disk_unit.specs.Units.{entry_with, books_if_reported, is_reported, reply_with};

/// At a disk or a tape a command that waits in a queue does what the plain disk array says: it reports an attention and
/// changes nothing, or has the reply and the new contents that the disk or the tape alone gives it (`array`). Those of
/// a disk come of its blocks (`disk`), and those of a tape of its reel (`tape`).
pub fn units_execute_as_the_array()
    ensures array { (c : Contents) (stored attention : Option Sense) (cdb sent : List ℕ)
        → is_request_sense (command_of cdb) ≡ false
        → execution (record { present = true; contents = c; stored = stored; attention = attention }) cdb sent
        ≡ record {
          contents = if is_reported attention cdb then c else (held_execution c cdb sent).contents;
          reported = is_reported attention cdb;
          reply = reply_with attention cdb (held_reply c cdb);
        } }
    ensures disk { (c : Contents) (cdb sent : List ℕ) → c.reel ≡ None
        → held_execution c cdb sent ≡ disk_execution c cdb sent }
    ensures tape { (t : Tape) (cdb sent : List ℕ) → held_execution (tape_contents t) cdb sent
        ≡ record {
          contents = tape_contents (tape_after t cdb sent);
          reported = false;
          reply = (tape_done t cdb sent).reply;
        } }
{}

/// What a unit keeps for each initiator, the stored sense, the pending attention and the place in the hold, is what
/// the seat of the plain disk array has: at the start (`start`), and after each event where it was so before. A
/// command that ends with CHECK CONDITION stores its sense and puts its initiator into the hold, and a REQUEST SENSE
/// that ends GOOD takes both away (`status`); a run takes away the attention that it reports (`run`); an abort takes
/// away the sense and the hold of its initiator (`abort`), or nothing, where it is of one tag (`abort_tag`); CLEAR
/// QUEUE tells the other initiators that lost a command, where the queue and the array agree which these are
/// (`clear_queue`); a reset takes away every sense and the whole hold of a unit that is there, and tells every
/// initiator (`reset`). The arrival of a command in the queue (`arrival`) or outside it (`guest`), the choice
/// (`choice`), a failure (`failure`) and the leaving of a command (`leaving`) change none of it. With that the one
/// has an empty hold exactly where the other has (`held`). Attentions are said of the initiators of the scenario, for
/// the array tells no others of a reset.
pub fn units_keep_what_seats_keep()
    ensures start { (s : ScenarioValue) (target unit depth keys : ℕ) (blocks : List (List ℕ))
        → IsKeptAt s.hosts (seat_of (starting_array s) target unit) (empty_books depth keys blocks) }
    ensures arrival { (hosts : List HostDef) (seat : Seat) (b : UnitBooks) (u : Option UnitState) (key : ℕ)
        (entry : Entry) (cdb : List ℕ) → IsKeptAt hosts seat b
        → IsKeptAt hosts (record seat { unit = u }) (books_with b key entry cdb) }
    ensures guest { (hosts : List HostDef) (seat : Seat) (b : UnitBooks) (p : Process) (reply : Option Reply)
        → IsKeptAt hosts seat b → IsKeptAt hosts (seat_with_guest seat p reply) b }
    ensures choice { (hosts : List HostDef) (seat : Seat) (b : UnitBooks) (pick : Pick) → IsKeptAt hosts seat b
        → IsKeptAt hosts (settled_seat seat) (books_after_choice b pick) }
    ensures run { (hosts : List HostDef) (seat : Seat) (b : UnitBooks) (p : Process) (done : Execution)
        → IsKeptAt hosts seat b → p.initiator < 8
        → IsKeptAt hosts (seat_with_execution seat p done) (books_if_reported b done.reported p.initiator) }
    ensures failure { (hosts : List HostDef) (seat : Seat) (b : UnitBooks) (id : ProcId) (reply : Reply)
        → IsKeptAt hosts seat b → IsKeptAt hosts (seat_with_reply seat id reply) b }
    ensures status { (hosts : List HostDef) (seat : Seat) (b : UnitBooks) (p : Process) (reply : Reply)
        → IsKeptAt hosts seat b → p.initiator < 8
        → IsKeptAt hosts (seat_after_status seat p reply) (books_after_status b p reply) }
    ensures leaving { (hosts : List HostDef) (seat : Seat) (b : UnitBooks) (id : ProcId) (key : ℕ)
        → IsKeptAt hosts seat b → IsKeptAt hosts (seat_without seat id) (books_without b key) }
    ensures abort { (hosts : List HostDef) (seat : Seat) (b : UnitBooks) (dev : ℕ) → IsKeptAt hosts seat b → dev < 8
        → IsKeptAt hosts (seat_after_abort dev seat) (books_after_abort b dev) }
    ensures abort_tag { (hosts : List HostDef) (seat : Seat) (b : UnitBooks) (dev n : ℕ) → IsKeptAt hosts seat b
        → IsKeptAt hosts (seat_after_abort_tag dev n seat) (books_after_abort_tag b dev n) }
    ensures clear_queue { (hosts : List HostDef) (seat : Seat) (b c : UnitBooks) (dev : ℕ) → IsKeptAt hosts seat b
        → IsCleared dev b c
        → ((other : ℕ) → other < 8
        → is_told dev b.queue.arrived other ≡ is_told_at dev (unit_processes seat.unit) other)
        → length c.attentions ≡ 8 → IsKeptAt hosts (seat_after_clear_queue dev seat) c }
    ensures reset { (hosts : List HostDef) (seat : Seat) (b : UnitBooks) → IsKeptAt hosts seat b
        → is_some seat.unit ≡ true → IsKeptAt hosts (seat_after_reset hosts seat) (books_after_reset b) }
    ensures held { (hosts : List HostDef) (seat : Seat) (b : UnitBooks) → IsKeptAt hosts seat b
        → is_held b.queue.hold ≡ is_any_held seat.hold }
{}

/// A unit at its seat of the plain disk array goes on as the seat does: where its live commands, what it keeps for each
/// initiator and its contents are those of the seat (`IsUnitAt`), they are so after each event. What a queue keeps of a
/// command is what the array orders commands by, which at a tape is one and the same block for all (`entry`). A command
/// that is queued is the last one that waits, and is refused exactly where the array refuses it (`accept`, `refuse`);
/// the choice is that of the array, while no initiator stands in the hold (`choice`); a run reads the attention and the
/// command descriptor block that the array reads, and executes as it does (`run`, `execution`); a failure leaves the
/// unit (`failure`); a command that ends stores its sense and leaves (`end`), one that is lost leaves (`loss`); aborts
/// and resets take away the commands that they name, what is kept, and tell whom they should (`abort`, `abort_tag`,
/// `clear_queue`, `reset`). A REQUEST SENSE, which stands outside the queue, comes, ends or is lost without the queue
/// (`guest`, `guest_end`, `guest_loss`). (ANSI X3.131-1994, 6.6.17, 7.5, 7.6, 7.8 and 7.9)
pub fn units_are_seats()
    ensures start { (s : ScenarioValue) (d : UnitDef) (target unit keys : ℕ) (blocks : List (List ℕ))
        → (seat_of (starting_array s) target unit).unit ≡ Some (starting_unit s d)
        → IsUnitAt s.hosts [] (contents_at_start s d) (starting_unit s d) (seat_of (starting_array s) target unit)
        (empty_books d.depth keys blocks) }
    ensures entry { (p : Process) (c : Contents) → p.serial ≡ is_reeled c
        → entry_with p.id p.initiator (tag_number p.tag) (class_of p.tag) (held_extent c p.cdb) ≡ entry_of p }
    ensures accept { (hosts : List HostDef) (live : List LiveCommand) (c : Contents) (u : UnitState) (seat : Seat)
        (b : UnitBooks) (key : ℕ) (p : Process) → IsUnitAt hosts live c u seat b
        → is_request_sense (command_of p.cdb) ≡ false → length b.queue.arrived < b.queue.depth
        → has_key b.queue.arrived key ≡ false → has_process live p.id ≡ false → key < length b.blocks
        → (seat_after_accept p seat ≡ Some (record seat { unit = Some (record u { waiting = u.waiting ++ p ∷ [] }) }))
        × IsUnitAt hosts (live ++ record { key = key; process = p } ∷ []) c (record u { waiting = u.waiting ++ p ∷ [] })
        (record seat { unit = Some (record u { waiting = u.waiting ++ p ∷ [] }) })
        (books_with b key (entry_of p) p.cdb) }
    ensures refuse { (hosts : List HostDef) (live : List LiveCommand) (c : Contents) (u : UnitState) (seat : Seat)
        (b : UnitBooks) (p : Process) → IsUnitAt hosts live c u seat b → is_request_sense (command_of p.cdb) ≡ false
        → length b.queue.arrived ≡ b.queue.depth → (seat_after_accept p seat ≡ None)
        × (seat_after_refuse p seat ≡ Some (seat_with_guest seat p (Some queue_full))) }
    ensures guest { (hosts : List HostDef) (live : List LiveCommand) (c : Contents) (u : UnitState) (seat : Seat)
        (b : UnitBooks) (p : Process) (reply : Option Reply) → IsUnitAt hosts live c u seat b
        → IsUnitAt hosts live c u (seat_with_guest seat p reply) b }
    ensures choice { (hosts : List HostDef) (live : List LiveCommand) (c : Contents) (u : UnitState) (seat : Seat)
        (b : UnitBooks) → IsUnitAt hosts live c u seat b → IsUnitAt hosts live c
        (unit_with_choice (is_any_held seat.hold) u) (settled_seat seat) (books_after_choice b u.pick) }
    ensures execution { (hosts : List HostDef) (live : List LiveCommand) (c : Contents) (u : UnitState) (seat : Seat)
        (b : UnitBooks) (key : ℕ) (p : Process) → IsUnitAt hosts live c u seat b → process_under live key ≡ Some p
        → p.initiator < 8 → is_initiator hosts p.initiator ≡ true → is_request_sense (command_of p.cdb) ≡ false
        → (block_at b key ≡ p.cdb) × (execution (context_of seat p.initiator) p.cdb p.sent ≡ record {
          contents = if is_reported (attention_at b key) (block_at b key) then c
              else (held_execution c p.cdb p.sent).contents;
          reported = is_reported (attention_at b key) (block_at b key);
          reply = reply_with (attention_at b key) (block_at b key) (held_reply c (block_at b key));
        }) }
    ensures run { (hosts : List HostDef) (live : List LiveCommand) (c : Contents) (u : UnitState) (seat : Seat)
        (b : UnitBooks) (key : ℕ) (p : Process) → IsUnitAt hosts live c u seat b → process_under live key ≡ Some p
        → p.initiator < 8 → u.current ≡ Some (record { process = p; reply = None })
        → guest_at seat.guests p.id ≡ None → is_any_held seat.hold ≡ false
        → (seat_after_run p.id seat ≡ Some (seat_with_execution seat p
        (execution (context_of seat p.initiator) p.cdb p.sent)))
        × ((done : Execution) → IsUnitAt hosts live done.contents
        (unit_with_reply p.id done.reply (unit_with_contents done.contents u)) (seat_with_execution seat p done)
        (books_if_reported b done.reported (initiator_at b key))) }
    ensures failure { (hosts : List HostDef) (live : List LiveCommand) (c : Contents) (u : UnitState) (seat : Seat)
        (b : UnitBooks) (ended : Bool) (p : Process) (reply : Reply) → IsUnitAt hosts live c u seat b
        → running_at seat p.id ≡ Some (record { process = p; reply = None })
        → (seat_after_failure ended p reply seat ≡ Some (seat_with_reply seat p.id reply))
        × IsUnitAt hosts live c (unit_with_reply p.id reply u) (seat_with_reply seat p.id reply) b }
    ensures end { (hosts : List HostDef) (live : List LiveCommand) (c : Contents) (u : UnitState) (seat : Seat)
        (b : UnitBooks) (key : ℕ) (p : Process) (reply : Reply) → IsUnitAt hosts live c u seat b → p.initiator < 8
        → process_under live key ≡ Some p → is_request_sense (command_of p.cdb) ≡ false
        → running_at seat p.id ≡ Some (record { process = p; reply = Some reply })
        → (seat_after_end p.id reply.status seat ≡ Some (seat_without (seat_after_status seat p reply) p.id))
        × IsUnitAt hosts (live_but (has_this_key key) live) c (unit_without u p.id)
        (seat_without (seat_after_status seat p reply) p.id)
        (books_after_end b key (initiator_at b key) (sense_if reply)) }
    ensures loss { (hosts : List HostDef) (live : List LiveCommand) (c : Contents) (u : UnitState) (seat : Seat)
        (b : UnitBooks) (key : ℕ) (p : Process) → IsUnitAt hosts live c u seat b → process_under live key ≡ Some p
        → (seat_after_loss false p.id seat ≡ Some (seat_without seat p.id))
        × IsUnitAt hosts (live_but (has_this_key key) live) c (unit_without u p.id) (seat_without seat p.id)
        (books_without b key) }
    ensures guest_end { (hosts : List HostDef) (live : List LiveCommand) (c : Contents) (u : UnitState) (seat : Seat)
        (b : UnitBooks) (p : Process) (reply : Reply) → IsUnitAt hosts live c u seat b → p.initiator < 8
        → has_process live p.id ≡ false → running_at seat p.id ≡ Some (record { process = p; reply = Some reply })
        → (seat_after_end p.id reply.status seat ≡ Some (seat_without (seat_after_status seat p reply) p.id))
        × IsUnitAt hosts live c u (seat_without (seat_after_status seat p reply) p.id) (books_after_status b p reply) }
    ensures guest_loss { (hosts : List HostDef) (live : List LiveCommand) (c : Contents) (u : UnitState) (seat : Seat)
        (b : UnitBooks) (id : ProcId) → IsUnitAt hosts live c u seat b → has_process live id ≡ false
        → (seat_after_loss false id seat ≡ Some (seat_without seat id))
        × IsUnitAt hosts live c u (seat_without seat id) b }
    ensures abort { (hosts : List HostDef) (live : List LiveCommand) (c : Contents) (u : UnitState) (seat : Seat)
        (b : UnitBooks) (dev : ℕ) → IsUnitAt hosts live c u seat b → dev < 8
        → IsUnitAt hosts (live_but (is_one_of (those.Of dev)) live) c (unit_kept (λ p. p.initiator == dev) u)
        (seat_after_aborted hosts dev aborts.All seat) (books_after_abort b dev) }
    ensures abort_tag { (hosts : List HostDef) (live : List LiveCommand) (c : Contents) (u : UnitState) (seat : Seat)
        (b : UnitBooks) (dev n : ℕ) → IsUnitAt hosts live c u seat b
        → IsUnitAt hosts (live_but (is_one_of (those.Tagged dev n)) live) c
        (unit_kept (λ p. p.initiator == dev && has_tag p.tag n) u) (seat_after_aborted hosts dev (aborts.Tag n) seat)
        (books_after_abort_tag b dev n) }
    ensures clear_queue { (hosts : List HostDef) (live : List LiveCommand) (c : Contents) (u : UnitState) (seat : Seat)
        (b new : UnitBooks) (dev : ℕ) → IsUnitAt hosts live c u seat b → IsCleared dev b new
        → IsUnitAt hosts (live_but (is_one_of those.All) live) c (unit_kept (λ p. true) u)
        (seat_after_aborted hosts dev aborts.WholeQueue seat) new }
    ensures reset { (hosts : List HostDef) (live : List LiveCommand) (c : Contents) (u : UnitState) (seat : Seat)
        (b : UnitBooks) → IsUnitAt hosts live c u seat b
        → IsUnitAt hosts (live_but (is_one_of those.All) live) c (unit_kept (λ p. true) u)
        (seat_after_reset hosts seat) (books_after_reset b) }
{}
