//! What was read so far.
ghost use Rattle.std.specs.Prelude.{◌≡◌, ◌∷◌, ◌++◌, [], OnOk};
ghost use Rattle.scenario.specs.Forms.{said};
ghost use Rattle.scenario.specs.Index.{IsIndexOf, IsCountOf};
ghost use Rattle.scenario.specs.Reading.{Gives, Refuses, added, said_after, line_after, nothing};

use crate::defs::{
    abort_def, fault_def, fill_def, full_cmd_def, host_def, load_def, reset_def, tape_def,
    target_def, unit_def,
};
use crate::fault::Refusal;
use crate::form::{Form, form_of};
use crate::index::{add_fill, add_load};
use crate::kind::{Kind, fits_version, in_order, kind_of};
use crate::limits::{are_printable, is_skipped, require};
use crate::needs::need_of;
use crate::value::Scenario;
use std::alloc::Global;
use std::collections::BTreeSet;

/// What was read so far.
#[derive(Drop)]
pub(crate) struct Draft {
    pub scenario: Scenario,
    /// The kind of the last line.
    pub last: Kind,
    /// How many bytes the commands need.
    pub needs: u32,
    /// The numbers of the blocks of the fills.
    pub blocks: BTreeSet<u64>,
    /// How many objects the loads put on the tape of each target and number.
    pub loaded: [u32; 64],
}

impl Draft {
    ghost use Rattle.scenario.specs.Seen.{seen};

    /// Nothing.
    pub(crate) fn new(alloc: Global) -> Draft
        ensures seen { seen result ≡ nothing }
        ensures index { IsIndexOf result.blocks result.scenario.fills }
        ensures count { IsCountOf result.loaded result.scenario.loads }
    {
        Draft {
            scenario: Scenario::new(alloc),
            last: Kind::Nothing,
            needs: 0,
            blocks: BTreeSet::new(alloc),
            loaded: [0; 64],
        }
    }

    #[tactic(auto, unfolding(crate::specs::Reading::added))]
    fn add(&mut self, alloc: Global, form: Form<'_>) -> Result<(), Refusal>
        requires index { IsIndexOf self.old.blocks self.old.scenario.fills }
        requires count { IsCountOf self.old.loaded self.old.scenario.loads }
        ensures after { Gives (λ _. seen self.new) result (added (seen self.old) (said form.entry)) }
        ensures index { OnOk result (IsIndexOf self.new.blocks self.new.scenario.fills) }
        ensures count { OnOk result (IsCountOf self.new.loaded self.new.scenario.loads) }
    {
        match form {
            Form::Scsi(version) => self.scenario.set_version(version),
            Form::Initiator(form) => {
                let def = host_def(&self.scenario, form)?;
                self.scenario.add_host(def)?;
            }
            Form::Target(form) => {
                let def = target_def(&self.scenario, form)?;
                self.scenario.add_target(def)?;
            }
            Form::Unit(form) => {
                let def = unit_def(&self.scenario, form)?;
                self.scenario.add_unit(def)?;
            }
            Form::Fill(form) => {
                let def = fill_def(alloc, &self.scenario, &self.blocks, form)?;
                add_fill(&mut self.scenario, &mut self.blocks, def)?;
            }
            Form::Tape(form) => {
                let def = tape_def(&self.scenario, form)?;
                self.scenario.add_tape(def)?;
            }
            Form::Load(form) => {
                let def = load_def(alloc, &self.scenario, &self.loaded, form)?;
                add_load(&mut self.scenario, &mut self.loaded, def)?;
            }
            Form::Cmd(form) => {
                let def = full_cmd_def(alloc, &self.scenario, self.needs, form)?;
                self.needs += need_of(&self.scenario, &def) as u32;
                self.scenario.add_command(def)?;
            }
            Form::Abort(form) => {
                let def = abort_def(&self.scenario, form)?;
                self.scenario.add_abort(def)?;
            }
            Form::Reset(form) => {
                let def = reset_def(&self.scenario, form)?;
                self.scenario.add_reset(def)?;
            }
            Form::Fault(form) => {
                let def = fault_def(&self.scenario, form)?;
                self.scenario.add_fault(def)?;
            }
            Form::End => {}
        }
        Ok(())
    }

    #[tactic(auto, unfolding(crate::specs::Reading::said_after))]
    fn take_form(&mut self, alloc: Global, form: Form<'_>) -> Result<(), Refusal>
        requires index { IsIndexOf self.old.blocks self.old.scenario.fills }
        requires count { IsCountOf self.old.loaded self.old.scenario.loads }
        ensures after { Gives (λ _. seen self.new) result (said_after (seen self.old) (said form.entry)) }
        ensures index { OnOk result (IsIndexOf self.new.blocks self.new.scenario.fills) }
        ensures count { OnOk result (IsCountOf self.new.loaded self.new.scenario.loads) }
    {
        let kind = kind_of(form);
        require(2, fits_version(self.scenario.version, form))?;
        require(3, in_order(self.last, kind))?;
        self.add(alloc, form)?;
        self.last = kind;
        Ok(())
    }

    /// Takes one line more, or refuses it for its lowest reason.
    #[tactic(auto, unfolding(crate::specs::Reading::line_after))]
    pub(crate) fn take_line(
        &mut self,
        alloc: Global,
        text: &[u8],
        ended: bool,
    ) -> Result<(), Refusal>
        requires index { IsIndexOf self.old.blocks self.old.scenario.fills }
        requires count { IsCountOf self.old.loaded self.old.scenario.loads }
        ensures after { Gives (λ _. seen self.new) result
            (line_after (seen self.old) (record { text = text.now; ended = ended })) }
        ensures index { OnOk result (IsIndexOf self.new.blocks self.new.scenario.fills) }
        ensures count { OnOk result (IsCountOf self.new.loaded self.new.scenario.loads) }
    {
        require(1, are_printable(text))?;
        require(2, ended)?;
        if is_skipped(text) {
            return Ok(());
        }
        match form_of(text) {
            Some(form) => self.take_form(alloc, form),
            None => Err(Refusal::Reason(2)),
        }
    }
}
