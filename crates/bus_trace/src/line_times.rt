//! Since when the lines of the bus stand as they do.

ghost use Rattle.std.specs.Prelude.{ℕ, suc, ◌≡◌, ◌<◌, ◌≤◌};
ghost use Rattle.bus_trace.specs.View.{AreTimesBefore, time_by_number};
ghost use Rattle.bus_trace.specs.Trace.{no_times, times_after, times_after_transfer, newer_line, free_time, phase_time};

use crate::changes::same_stage;
use crate::line_set::Lines;
use bus_base::Ns;

/// Since when each line but the data lines stands as it does, in ns: when it last changed on the bus, or 0.
#[repr(C)]
#[derive(Clone, Copy)]
pub struct LineTimes {
    /// BSY.
    pub bsy: Ns,
    /// SEL.
    pub sel: Ns,
    /// C/D.
    pub cd: Ns,
    /// I/O.
    pub io: Ns,
    /// MSG.
    pub msg: Ns,
    /// REQ.
    pub req: Ns,
    /// ACK.
    pub ack: Ns,
    /// ATN.
    pub atn: Ns,
    /// RST.
    pub rst: Ns,
}

impl LineTimes {
    /// Before any row.
    pub fn new() -> LineTimes
        ensures { result ≡ no_times }
    {
        LineTimes {
            bsy: 0,
            sel: 0,
            cd: 0,
            io: 0,
            msg: 0,
            req: 0,
            ack: 0,
            atn: 0,
            rst: 0,
        }
    }

    /// The times once the bus goes on from one set of lines to the next at this time.
    pub fn after(&self, before: Lines, after: Lines, time: Ns) -> LineTimes
        ensures exact { result ≡ times_after self.now before after time }
        ensures timely { (end : ℕ) → AreTimesBefore end self.now → time < end → AreTimesBefore end result }
    {
        LineTimes {
            bsy: newer_line(before.bsy(), after.bsy(), self.bsy, time),
            sel: newer_line(before.sel(), after.sel(), self.sel, time),
            cd: newer_line(before.cd(), after.cd(), self.cd, time),
            io: newer_line(before.io(), after.io(), self.io, time),
            msg: newer_line(before.msg(), after.msg(), self.msg, time),
            req: newer_line(before.req(), after.req(), self.req, time),
            ack: newer_line(before.ack(), after.ack(), self.ack, time),
            atn: newer_line(before.atn(), after.atn(), self.atn, time),
            rst: newer_line(before.rst(), after.rst(), self.rst, time),
        }
    }

    /// One more row, at this time, before and after which the bus has these lines. Most rows change REQ, ACK and data
    /// lines alone.
    pub fn step(&mut self, before: Lines, after: Lines, time: Ns)
        ensures exact { self.new ≡ times_after self.old before after time }
        ensures timely { (end : ℕ) → AreTimesBefore end self.old → time < end → AreTimesBefore end self.new }
    {
        if same_stage(before, after) {
            self.transfer(before, after, time);
        } else {
            *self = self.after(before, after, time);
        }
    }

    /// The same of a row that changes REQ, ACK and data lines alone.
    #[inline(always)]
    pub fn transfer(&mut self, before: Lines, after: Lines, time: Ns)
        ensures exact { self.new ≡ times_after_transfer self.old before after time }
        ensures timely { (end : ℕ) → AreTimesBefore end self.old → time < end → AreTimesBefore end self.new }
    {
        self.req = newer_line(before.req(), after.req(), self.req, time);
        self.ack = newer_line(before.ack(), after.ack(), self.ack, time);
    }

    /// By the number of a line: 9 to 17 are BSY, SEL, C/D, I/O, MSG, REQ, ACK, ATN and RST.
    pub fn by_number(&self, line: u8) -> Ns
        ensures value { result ≡ time_by_number self.now line }
        ensures timely { (end : ℕ) → AreTimesBefore end self.now → result < end }
    {
        match line {
            9 => self.bsy,
            10 => self.sel,
            11 => self.cd,
            12 => self.io,
            13 => self.msg,
            14 => self.req,
            15 => self.ack,
            16 => self.atn,
            _ => self.rst,
        }
    }

    /// Since when BSY, SEL and RST stand as they do: where they are false, the bus is free since then (6.1.1).
    pub fn free(&self) -> Ns
        ensures value { result ≡ free_time self.now }
        ensures timely { (end : ℕ) → AreTimesBefore end self.now → result < end }
    {
        self.bsy.max(self.sel).max(self.rst)
    }

    /// When MSG, C/D or I/O last changed: since when the phase stands as it does (6.1.5).
    pub fn phase(&self) -> Ns
        ensures value { result ≡ phase_time self.now }
        ensures timely { (end : ℕ) → AreTimesBefore end self.now → result < end }
    {
        self.msg.max(self.cd).max(self.io)
    }
}

// When a line last changed, where it stood so before and stands so after this time.
#[inline(always)]
fn newer_line(before: bool, after: bool, was: Ns, time: Ns) -> Ns
    ensures exact { result ≡ newer_line before after was time }
    ensures timely { (end : ℕ) → was < end → time < end → result < end }
{
    if before == after { was } else { time }
}
