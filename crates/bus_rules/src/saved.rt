//! What stands on the bus as plain words, which can be copied, written to a file and read back.
//!
//! Any words say something: what is out of range is cut to its range. What is saved and read back is the same.
ghost use Rattle.std.specs.Prelude.{◌≡◌};

use crate::course::Course;
use bus_phases::{Agreements, Raises, SavedDialogue, SavedPulses, duty_in, duty_word};
use bus_trace::{
    SavedArbitration, SavedCall, SavedConnection, id_or_none_in, id_or_none_word, is_yes, word_of,
};

/// What stands on the bus after some rows.
#[repr(C)]
#[derive(Clone, Copy)]
pub struct SavedCourse {
    /// When each device last raised BSY.
    pub bsy_raised: Raises,
    /// When each device last raised RST.
    pub rst_raised: Raises,
    /// The arbitration that stands.
    pub arbitration: SavedArbitration,
    /// The call that stands.
    pub call: SavedCall,
    /// The connection that stands.
    pub connection: SavedConnection,
    /// The receiver of the byte that crossed in the last row.
    pub receiver: u64,
    /// The pulses in the present phase.
    pub pulses: SavedPulses,
    /// Whether I/O became true in the connection.
    pub turned: u64,
    /// What ATN asks of the target.
    pub duty: u64,
    /// The agreements before the connection that stands.
    pub agreed: Agreements,
    /// What the messages of the connection say.
    pub dialogue: SavedDialogue,
}

impl SavedCourse {
    ghost use Rattle.bus_rules.specs.Saved.{course_in};

    // Saves what stands on the bus.
    pub fn of(course: &Course) -> SavedCourse
        ensures { course_in result ≡ course.now }
    {
        SavedCourse {
            bsy_raised: course.bsy_raised,
            rst_raised: course.rst_raised,
            arbitration: SavedArbitration::of(course.arbitration),
            call: SavedCall::of(course.call),
            connection: SavedConnection::of(course.connection),
            receiver: id_or_none_word(course.receiver),
            pulses: SavedPulses::of(course.pulses),
            turned: word_of(course.turned),
            duty: duty_word(course.duty),
            agreed: course.agreed,
            dialogue: SavedDialogue::of(&course.dialogue),
        }
    }

    // What was saved.
    pub fn get(&self) -> Course
        ensures { result ≡ course_in self.now }
    {
        Course {
            bsy_raised: self.bsy_raised,
            rst_raised: self.rst_raised,
            arbitration: self.arbitration.get(),
            call: self.call.get(),
            connection: self.connection.get(),
            receiver: id_or_none_in(self.receiver),
            pulses: self.pulses.get(),
            turned: is_yes(self.turned),
            duty: duty_in(self.duty),
            agreed: self.agreed,
            dialogue: self.dialogue.get(),
        }
    }
}
