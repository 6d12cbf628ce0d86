//! What an initiator holds of its processes: of each its pointers and its status (ANSI X3.131-1994, 6.4).
ghost use Rattle.std.specs.Prelude.{◌≡◌, slice_index_or};
ghost use Rattle.story_model.specs.CarriedBytes.{is_status_phase};
ghost use Rattle.io_pointers.specs.Pointers.{place_in, with_restored, with_saved_data};
ghost use Rattle.initiator_books.specs.HeldPointers.{nothing_held, held_restored, held_after_message, advanced_within, status_after, held_after_byte, no_pair, half_of, with_half, held_at, with_held, restored_if, message_if, byte_if};

use bus_base::ProcId;
use bus_trace::{Lines, is_command, is_data};
use io_pointers::{Area, Pointers};
use msg_grammar::MsgIn;
use story_model::is_status_phase;

/// What is held of a process.
#[derive(Clone, Copy)]
pub struct Held {
    /// Its pointers; a place past the last one of 32 bits is held as that one.
    pub pointers: Pointers,
    /// The first byte of its status; 00 before one has come.
    pub status: u8,
}

/// What is held of a command, and of the automatic REQUEST SENSE after it.
#[derive(Clone, Copy)]
pub struct HeldPair {
    /// Of the command.
    pub command: Held,
    /// Of the automatic REQUEST SENSE.
    pub sense: Held,
}

fn place_in(pointers: Pointers, area: Area) -> u32
    ensures { result ≡ place_in pointers.active area }
{
    match area {
        Area::Command => pointers.active.command,
        Area::Payload => pointers.active.payload,
        Area::Status => pointers.active.status,
    }
}

// A byte crosses in the phase of this area.
fn advance_within(pointers: &mut Pointers, area: Area)
    ensures { pointers.new ≡ advanced_within pointers.old area }
{
    if place_in(*pointers, area) < 0xffff_ffff {
        pointers.advance(area);
    }
}

fn restored(pointers: Pointers) -> Pointers
    ensures { result ≡ with_restored pointers }
{
    let mut next = pointers;
    next.restore();
    next
}

fn with_saved_data(pointers: Pointers) -> Pointers
    ensures { result ≡ with_saved_data pointers }
{
    let mut next = pointers;
    next.save_data();
    next
}

impl Held {
    /// Of a process that has carried nothing.
    pub fn new() -> Held
        ensures { result ≡ nothing_held }
    {
        Held {
            pointers: Pointers::new(),
            status: 0,
        }
    }

    /// A connection begins, or RESTORE POINTERS comes (6.6.19): the saved pointers become the active ones.
    pub fn restored(self) -> Held
        ensures { result ≡ held_restored self }
    {
        Held {
            pointers: restored(self.pointers),
            ..self
        }
    }

    /// This message comes.
    pub fn after_message(self, message: MsgIn) -> Held
        ensures { result ≡ held_after_message self message }
    {
        match message {
            MsgIn::SavePointer => Held {
                pointers: with_saved_data(self.pointers),
                ..self
            },
            MsgIn::RestorePointers => self.restored(),
            _ => self,
        }
    }

    fn status_after(self, byte: u8) -> u8
        ensures { result ≡ status_after self byte }
    {
        if self.pointers.active.status == 0 {
            byte
        } else {
            self.status
        }
    }

    /// This byte crosses in the phase of these lines.
    pub fn carry(&mut self, lines: Lines, byte: u8)
        ensures { self.new ≡ held_after_byte self.old lines byte }
    {
        if is_command(lines) {
            advance_within(&mut self.pointers, Area::Command);
        } else if is_data(lines) {
            advance_within(&mut self.pointers, Area::Payload);
        } else if is_status_phase(lines) {
            self.status = self.status_after(byte);
            advance_within(&mut self.pointers, Area::Status);
        }
    }
}

impl HeldPair {
    /// Of a command that has carried nothing.
    pub fn new() -> HeldPair
        ensures { result ≡ no_pair }
    {
        HeldPair {
            command: Held::new(),
            sense: Held::new(),
        }
    }

    fn half(self, sense: bool) -> Held
        ensures { result ≡ half_of self sense }
    {
        if sense { self.sense } else { self.command }
    }

    fn with_half(self, sense: bool, held: Held) -> HeldPair
        ensures { result ≡ with_half self sense held }
    {
        if sense {
            HeldPair {
                sense: held,
                ..self
            }
        } else {
            HeldPair {
                command: held,
                ..self
            }
        }
    }

    // This byte of this process of the two crosses in the phase of these lines.
    fn carry(&mut self, sense: bool, lines: Lines, byte: u8)
        ensures { self.new ≡ with_half self.old sense (held_after_byte (half_of self.old sense) lines byte) }
    {
        if sense {
            self.sense.carry(lines, byte);
        } else {
            self.command.carry(lines, byte);
        }
    }
}

fn pair_at(all: &[HeldPair], number: u16) -> HeldPair
    ensures { result ≡ slice_index_or all.now number no_pair }
{
    match all.get(number as usize) {
        Some(pair) => *pair,
        None => HeldPair::new(),
    }
}

/// What is held of this process.
pub fn held_at(all: &[HeldPair], id: ProcId) -> Held
    ensures { result ≡ held_at all.now id }
{
    pair_at(all, id.command).half(id.sense)
}

/// This is held of this process.
pub fn set_held(all: &mut [HeldPair], id: ProcId, held: Held)
    ensures { all.new ≡ with_held all.old id held }
{
    let pair = pair_at(all, id.command).with_half(id.sense, held);
    let number = id.command as usize;
    if number < all.len() {
        all[number] = pair;
    }
}

/// A connection of this process begins.
pub fn restore_held(all: &mut [HeldPair], id: Option<ProcId>)
    ensures { all.new ≡ restored_if all.old id }
{
    if let Some(id) = id {
        let held = held_at(all, id).restored();
        set_held(all, id, held);
    }
}

/// This message comes for this process.
pub fn hear_held(all: &mut [HeldPair], id: Option<ProcId>, message: MsgIn)
    ensures { all.new ≡ message_if all.old id message }
{
    if let Some(id) = id {
        let held = held_at(all, id).after_message(message);
        set_held(all, id, held);
    }
}

/// This byte of this process crosses in the phase of these lines.
pub fn carry_held(all: &mut [HeldPair], id: Option<ProcId>, lines: Lines, byte: u8)
    ensures { all.new ≡ byte_if all.old id lines byte }
{
    let Some(id) = id else {
        return;
    };
    let number = id.command as usize;
    if number < all.len() {
        all[number].carry(id.sense, lines, byte);
    }
}
