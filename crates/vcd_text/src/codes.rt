//! The codes of variables.
ghost use Rattle.std.specs.Prelude.{◌≡◌, ◌<◌, [], ◌∷◌, ◌++◌, nat_eq, OnOk, IfOk, IfSome};
ghost use Rattle.std.specs.Cmp.Lexicographic.{pointwise};
ghost use Rattle.vcd_text.specs.CodeLists.{longest_code, longest_device};
ghost use Rattle.vcd_text.specs.Codes.{with_code, has_code, device_of, has_device};

use bus_base::Dev;
use std::alloc::{AllocError, Global};
use std::collections::BTreeSet;
use std::marker::Model;

/// The codes of all variables.
#[derive(Drop)]
pub(crate) struct CodeSet {
    codes: BTreeSet<Vec<u8>>,
    longest: usize,
}

impl Model for CodeSet {
    ghost use Rattle.std.specs.Prelude.{◌≡◌, ℕ, List, map};
    ghost use Rattle.vcd_text.specs.CodeLists.{bytes_in, longest_code};

    ghost Value = { List (List ℕ) };

    ghost view = { λ a. map bytes_in a.codes.keys };

    ghost invariant = { λ a. a.longest ≡ longest_code (map bytes_in a.codes.keys) };
}

impl CodeSet {
    pub(crate) fn new(alloc: Global) -> CodeSet
        ensures { result ≡ [] }
    {
        CodeSet {
            codes: BTreeSet::new(alloc),
            longest: 0,
        }
    }

    /// One code more.
    pub(crate) fn add(&mut self, alloc: Global, code: &[u8]) -> Result<(), AllocError>
        ensures { OnOk result (self.new ≡ with_code self.old code.now) }
    {
        let len = code.len();
        let code = Vec::from_slice(alloc, code)?;
        self.codes.insert(code)?;
        self.longest = self.longest.max(len);
        Ok(())
    }

    /// How many bytes the longest code has.
    pub(crate) fn longest(&self) -> usize
        ensures { result ≡ longest_code self.now }
    {
        self.longest
    }

    pub(crate) fn has(&self, code: &[u8]) -> bool
        ensures { result ≡ has_code self.now code.now }
    {
        self.codes.contains(code)
    }
}

/// A device and its code.
#[derive(Drop)]
struct DeviceCode {
    device: Dev,
    code: Vec<u8>,
}

impl Model for DeviceCode {
    ghost use Rattle.std.specs.Prelude.{ℕ, List};

    ghost Value = { ℕ × List ℕ };

    ghost view = { λ a. (a.device, a.code.items) };
}

impl DeviceCode {
    fn new(alloc: Global, device: Dev, code: &[u8]) -> Result<DeviceCode, AllocError>
        ensures { IfOk result (λ x. x ≡ (device, code.now)) }
    {
        let code = Vec::from_slice(alloc, code)?;
        Ok(DeviceCode { device, code })
    }

    fn device(&self) -> Dev
        ensures { result ≡ self.now.0 }
    {
        self.device
    }

    fn is(&self, code: &[u8]) -> bool
        ensures { result ≡ pointwise nat_eq self.now.1 code.now }
    {
        self.code.as_slice() == code
    }
}

/// The codes of the devices.
#[derive(Drop)]
pub(crate) struct DeviceCodes {
    codes: Vec<DeviceCode>,
    longest: usize,
}

impl Model for DeviceCodes {
    ghost use Rattle.std.specs.Prelude.{◌≡◌, ℕ, List, ◌<◌};
    ghost use Rattle.std.specs.List.{AllByRecursion};
    ghost use Rattle.vcd_text.specs.CodeLists.{longest_device};

    ghost Value = { List (ℕ × List ℕ) };

    ghost view = { λ a. a.codes.items };

    ghost invariant = { λ a. AllByRecursion (λ x. x.0 < 8) a.codes.items × (a.longest ≡ longest_device a.codes.items) };
}

impl DeviceCodes {
    pub(crate) fn new(alloc: Global) -> DeviceCodes
        ensures { result ≡ [] }
    {
        DeviceCodes {
            codes: Vec::new(alloc),
            longest: 0,
        }
    }

    /// One device more.
    pub(crate) fn add(&mut self, alloc: Global, device: Dev, code: &[u8]) -> Result<(), AllocError>
        requires { device < 8 }
        ensures { OnOk result (self.new ≡ self.old ++ (device, code.now) ∷ []) }
    {
        let named = DeviceCode::new(alloc, device, code)?;
        self.codes.push(named)?;
        self.longest = self.longest.max(code.len());
        Ok(())
    }

    /// How many bytes the longest code has.
    pub(crate) fn longest(&self) -> usize
        ensures { result ≡ longest_device self.now }
    {
        self.longest
    }

    /// The device of which this is the code.
    pub(crate) fn device_of(&self, code: &[u8]) -> Option<Dev>
        ensures exact { result ≡ device_of self.now code.now }
        ensures small { IfSome result (λ device. device < 8) }
    {
        for named in &self.codes {
            if named.is(code) {
                return Some(named.device());
            }
        }
        None
    }

    pub(crate) fn has(&self, device: Dev) -> bool
        ensures { result ≡ has_device self.now device }
    {
        self.codes.iter().any(|x| x.device() == device)
    }
}
