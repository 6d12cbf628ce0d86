//! The area of an initiator's memory that a pointer points into (ANSI X3.131-1994, 6.4).
ghost use Rattle.std.specs.Prelude.{◌≡◌, ◌<◌, ◌≤◌, IfOk, length, replicate, slice_index, slice_set};

use bus_base::{NoMemory, Octets};
use std::alloc::Global;
use std::marker::Model;

/// The bytes of an area, each at its place.
#[derive(Drop)]
pub struct HostBuffer {
    bytes: Vec<u8>,
}

impl Model for HostBuffer {
    ghost use Rattle.std.specs.Prelude.{ℕ, List};

    ghost Value = { List ℕ };

    ghost view = { λ b. b.bytes.items };
}

impl HostBuffer {
    ghost use Rattle.story_model.specs.CarriedBytes.{Area, empty_area, area_with};
    ghost use Rattle.io_pointers.specs.HostBuffer.{IsHeld};

    /// An area of `len` bytes, all 00.
    pub fn new(alloc: Global, len: usize) -> Result<HostBuffer, NoMemory>
        ensures zeros { IfOk result (λ made. made ≡ replicate len 0) }
        ensures held { IfOk result (λ made. IsHeld empty_area made) }
    {
        let bytes = vec![in alloc; 0; len]?;
        Ok(HostBuffer { bytes })
    }

    /// Puts a byte at a place within the area; the others stay.
    pub fn put(&mut self, at: u32, byte: u8)
        requires { at < length self.old }
        ensures exact { self.new ≡ slice_set self.old at byte }
        ensures held { (a : Area) → a.active ≡ at → IsHeld a self.old → IsHeld (area_with a byte) self.new }
    {
        self.bytes[at as usize] = byte;
    }

    /// The byte at a place within the area.
    pub fn take(&self, at: u32) -> u8
        requires { at < length self.now }
        ensures { result ≡ slice_index self.now at }
    {
        self.bytes[at as usize]
    }

    /// All bytes of the area.
    pub fn into_bytes(self) -> Octets
        ensures { result ≡ self }
    {
        Octets::new(self.bytes)
    }
}
