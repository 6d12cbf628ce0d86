//! What the messages of a connection say (ANSI X3.131-1994, 6.6).
ghost use Rattle.std.specs.Prelude.{◌≡◌, Some, None};
ghost use Rattle.bus_phases.specs.Dialogue.{no_command, nothing_spoken, without_offset, asynchronous, is_of_other, spoken_with_offer, spoken_with_reject, spoken_with_word, void_or_now, heard_with_out, heard_before_in, heard_with_in, command_on, spoken_with_byte, void_with_byte, heard_with_command};

use crate::words::{End, Word, is_same_end};
use bus_trace::Agreement;

/// The bytes of COMMAND that have crossed since the command pointer was restored. The count stays at the last
/// u64.
#[derive(Clone, Copy)]
pub struct CommandBytes {
    /// The first byte; 0 before it.
    pub first: u8,
    /// How many have crossed.
    pub count: u64,
}

/// What the messages of a connection so far say.
#[derive(Clone, Copy)]
pub struct Spoken {
    /// The agreement of its two devices.
    pub agreement: Agreement,
    /// Whose synchronous data transfer request is open.
    pub offer: Option<End>,
    /// Whose synchronous data transfer request answered, where that is the last message.
    pub answered: Option<End>,
    /// The bytes of the command.
    pub command: CommandBytes,
    /// Whether BUS DEVICE RESET was sent.
    pub device_reset: bool,
}

/// What the messages say, and what they say where the last one, which came in MESSAGE IN, is void.
#[derive(Clone, Copy)]
pub struct Heard {
    pub now: Spoken,
    pub void: Option<Spoken>,
}

/// Asynchronous data transfer.
pub fn asynchronous() -> Agreement
    ensures { result ≡ asynchronous }
{
    Agreement {
        period: 0,
        offset: 0,
    }
}

/// No message yet, under this agreement.
pub fn nothing_spoken(agreement: Agreement) -> Spoken
    ensures { result ≡ nothing_spoken agreement }
{
    Spoken {
        agreement,
        offer: None,
        answered: None,
        command: CommandBytes { first: 0, count: 0 },
        device_reset: false,
    }
}

fn without_offset(agreement: Agreement) -> Agreement
    ensures { result ≡ without_offset agreement }
{
    Agreement {
        period: agreement.period,
        offset: 0,
    }
}

fn is_of_other(offer: Option<End>, end: End) -> bool
    ensures { result ≡ is_of_other offer end }
{
    match offer {
        None => false,
        Some(e) => !is_same_end(e, end),
    }
}

fn spoken_with_offer(old: Spoken, end: End, agreement: Agreement) -> Spoken
    ensures { result ≡ spoken_with_offer old end agreement }
{
    if is_of_other(old.offer, end) {
        Spoken {
            agreement,
            offer: None,
            answered: Some(end),
            ..old
        }
    } else {
        Spoken {
            offer: Some(end),
            answered: None,
            ..old
        }
    }
}

fn spoken_with_reject(old: Spoken, end: End) -> Spoken
    ensures { result ≡ spoken_with_reject old end }
{
    if is_of_other(old.offer, end) {
        Spoken {
            agreement: without_offset(old.agreement),
            offer: None,
            answered: None,
            ..old
        }
    } else if is_of_other(old.answered, end) {
        Spoken {
            agreement: without_offset(old.agreement),
            answered: None,
            ..old
        }
    } else {
        Spoken {
            answered: None,
            ..old
        }
    }
}

fn spoken_with_word(old: Spoken, end: End, word: Word) -> Spoken
    ensures { result ≡ spoken_with_word old end word }
{
    match word {
        Word::Offer(agreement) => spoken_with_offer(old, end, agreement),
        Word::Reject => spoken_with_reject(old, end),
        Word::Restore => Spoken {
            command: CommandBytes { first: 0, count: 0 },
            answered: None,
            ..old
        },
        Word::DeviceReset => Spoken {
            agreement: without_offset(old.agreement),
            device_reset: true,
            answered: None,
            ..old
        },
        Word::ParityError | Word::Other => Spoken {
            answered: None,
            ..old
        },
    }
}

fn void_or_now(void: Option<Spoken>, now: Spoken) -> Spoken
    ensures { result ≡ void_or_now void now }
{
    match void {
        None => now,
        Some(spoken) => spoken,
    }
}

/// What is heard after a message to the target.
pub fn heard_with_out(old: Heard, word: Word) -> Heard
    ensures { result ≡ heard_with_out old word }
{
    let now = match word {
        Word::ParityError => void_or_now(old.void, old.now),
        _ => old.now,
    };
    Heard {
        now: spoken_with_word(now, End::Initiator, word),
        void: None,
    }
}

/// What is heard once a message to the initiator has begun.
pub fn heard_before_in(old: Heard) -> Heard
    ensures { result ≡ heard_before_in old }
{
    Heard {
        now: old.now,
        void: Some(old.now),
    }
}

/// What is heard after a message to the initiator.
pub fn heard_with_in(old: Heard, word: Word) -> Heard
    ensures { result ≡ heard_with_in old word }
{
    Heard {
        now: spoken_with_word(old.now, End::Target, word),
        void: old.void,
    }
}

fn command_on(old: CommandBytes, byte: u8) -> CommandBytes
    ensures { result ≡ command_on old byte }
{
    CommandBytes {
        first: if old.count == 0 { byte } else { old.first },
        count: old.count.saturating_add(1),
    }
}

fn spoken_with_byte(old: Spoken, byte: u8) -> Spoken
    ensures { result ≡ spoken_with_byte old byte }
{
    Spoken {
        command: command_on(old.command, byte),
        ..old
    }
}

fn void_with_byte(old: Option<Spoken>, byte: u8) -> Option<Spoken>
    ensures { result ≡ void_with_byte old byte }
{
    match old {
        None => None,
        Some(spoken) => Some(spoken_with_byte(spoken, byte)),
    }
}

/// What is heard after a byte of COMMAND.
pub fn heard_with_command(old: Heard, byte: u8) -> Heard
    ensures { result ≡ heard_with_command old byte }
{
    Heard {
        now: spoken_with_byte(old.now, byte),
        void: void_with_byte(old.void, byte),
    }
}
