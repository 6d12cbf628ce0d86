//! What a line says, apart from what stands before it.
ghost use Rattle.std.specs.Prelude.{◌≡◌};
ghost use Rattle.text_words.specs.Words.{Sees};
ghost use Rattle.scenario.specs.Parts.{numbered_at, exactly_at, yes_no_at, flag_at, policy_at, pick_at, tag_at, mark_at, block_at, object_at, object_said, nothing_at, hex_at, from_at, payload_at, payload_said, what_tag_at, what_at};
ghost use Rattle.scenario.specs.Forms.{said, scsi_at, initiator_at, target_at, unit_at, fill_at, tape_at, load_at, cmd_at, abort_at, reset_at, fault_at, end_at, declared_at, happens_at, form_of};

use bus_base::Pick;
use text_words::{Number, after, hex_array, hex_digits, number, whole};

/// What an initiator's line says. In text 1 it does not tell whether the initiator offers.
#[derive(Clone, Copy)]
pub(crate) struct HostForm {
    pub device: Number,
    pub latency: Number,
    pub open: Number,
    pub retries: Number,
    pub period: Number,
    pub offset: Number,
    pub lag: Number,
    pub offers: Option<bool>,
}

/// The policy that a target's line names.
#[derive(Clone, Copy)]
pub(crate) enum PolicyForm {
    Never,
    Command,
    Burst(Number),
    NoSave(Number),
}

/// What a target's line says. In text 1 it does not tell whether the target begins.
#[derive(Clone, Copy)]
pub(crate) struct TargetForm {
    pub device: Number,
    pub latency: Number,
    pub retries: Number,
    pub disc: PolicyForm,
    pub pick: Pick,
    pub seek: Number,
    pub period: Number,
    pub offset: Number,
    pub begins: Option<bool>,
}

/// What a unit's line says.
#[derive(Clone, Copy)]
pub(crate) struct UnitForm {
    pub target: Number,
    pub unit: Number,
    pub blocks: Number,
    pub size: Number,
    pub depth: Number,
}

/// What a fill's line says; its bytes as hexadecimal digits.
#[derive(Clone, Copy)]
pub(crate) struct FillForm<'a> {
    pub target: Number,
    pub unit: Number,
    pub lba: Number,
    pub digits: &'a [u8],
}

/// What a tape's line says.
#[derive(Clone, Copy)]
pub(crate) struct TapeForm {
    pub target: Number,
    pub unit: Number,
    pub objects: Number,
    pub size: Number,
    pub depth: Number,
}

/// The object that a load's line names; the bytes of a block as hexadecimal digits.
#[derive(Clone, Copy)]
pub(crate) enum ObjectForm<'a> {
    Block(&'a [u8]),
    Mark,
}

/// What a load's line says.
#[derive(Clone, Copy)]
pub(crate) struct LoadForm<'a> {
    pub target: Number,
    pub unit: Number,
    pub what: ObjectForm<'a>,
}

/// The queueing that a command's line names.
#[derive(Clone, Copy)]
pub(crate) enum TagForm {
    Untagged,
    Simple(Number),
    Ordered(Number),
    Head(Number),
}

/// What a command's line says of the bytes that are sent.
#[derive(Clone, Copy)]
pub(crate) enum PayloadForm<'a> {
    Nothing,
    Hex(&'a [u8]),
    From(u8),
}

/// What a command's line says.
#[derive(Clone, Copy)]
pub(crate) struct CmdForm<'a> {
    pub host: Number,
    pub target: Number,
    pub unit: Number,
    pub at: Number,
    pub tag: TagForm,
    pub cdb: &'a [u8],
    pub payload: PayloadForm<'a>,
}

/// What an abort's line names.
#[derive(Clone, Copy)]
pub(crate) enum WhatForm {
    All,
    Tag(Number),
    Queue,
    Device,
}

/// What an abort's line says.
#[derive(Clone, Copy)]
pub(crate) struct AbortForm {
    pub host: Number,
    pub target: Number,
    pub unit: Number,
    pub at: Number,
    pub what: WhatForm,
}

/// What a reset's line says.
#[derive(Clone, Copy)]
pub(crate) struct ResetForm {
    pub device: Number,
    pub at: Number,
}

/// What a fault's line says.
#[derive(Clone, Copy)]
pub(crate) struct FaultForm {
    pub at: Number,
    pub bit: Number,
}

/// What a line says.
#[derive(Clone, Copy)]
pub(crate) enum Form<'a> {
    Scsi(u8),
    Initiator(HostForm),
    Target(TargetForm),
    Unit(UnitForm),
    Fill(FillForm<'a>),
    Tape(TapeForm),
    Load(LoadForm<'a>),
    Cmd(CmdForm<'a>),
    Abort(AbortForm),
    Reset(ResetForm),
    Fault(FaultForm),
    End,
}

// A number after a text.
#[tactic(auto, unfolding(crate::specs::Parts::numbered_at))]
fn numbered<'a>(text: &[u8], bytes: &'a [u8]) -> Option<(Number, &'a [u8])>
    ensures { Sees (λ x. (x.0, x.1.now)) result (numbered_at text.now bytes.now) }
{
    let rest = after(text, bytes)?;
    number(rest)
}

// The text, and nothing after it.
#[tactic(auto, unfolding(crate::specs::Parts::exactly_at))]
fn exactly(text: &[u8], bytes: &[u8]) -> Option<()>
    ensures { result ≡ exactly_at text.now bytes.now }
{
    let rest = after(text, bytes)?;
    whole(rest)
}

#[tactic(auto, unfolding(crate::specs::Parts::yes_no_at))]
fn yes_no(bytes: &[u8]) -> Option<bool>
    ensures { result ≡ yes_no_at bytes.now }
{
    if let Some(()) = exactly(b"yes", bytes) {
        return Some(true);
    }
    exactly(b"no", bytes)?;
    Some(false)
}

// What a line of texts 2 and 3 says after `text`, and `None` within where the line is over, as in text 1.
#[tactic(auto, unfolding(crate::specs::Parts::flag_at))]
fn flag(text: &[u8], bytes: &[u8]) -> Option<Option<bool>>
    ensures { result ≡ flag_at text.now bytes.now }
{
    if bytes.is_empty() {
        return Some(None);
    }
    let rest = after(text, bytes)?;
    let says = yes_no(rest)?;
    Some(Some(says))
}

#[tactic(auto, unfolding(crate::specs::Forms::scsi_at))]
fn scsi_form(line: &[u8]) -> Option<Form<'_>>
    ensures { Sees said result (scsi_at line.now) }
{
    if let Some(()) = exactly(b"scsi 1", line) {
        return Some(Form::Scsi(1));
    }
    if let Some(()) = exactly(b"scsi 2", line) {
        return Some(Form::Scsi(2));
    }
    exactly(b"scsi 3", line)?;
    Some(Form::Scsi(3))
}

#[tactic(auto, unfolding(crate::specs::Forms::initiator_at))]
fn initiator_form(line: &[u8]) -> Option<Form<'_>>
    ensures { Sees said result (initiator_at line.now) }
{
    let (device, rest) = numbered(b"initiator ", line)?;
    let (latency, rest) = numbered(b" latency ", rest)?;
    let (open, rest) = numbered(b" open ", rest)?;
    let (retries, rest) = numbered(b" retries ", rest)?;
    let (period, rest) = numbered(b" sync ", rest)?;
    let (offset, rest) = numbered(b" ", rest)?;
    let (lag, rest) = numbered(b" lag ", rest)?;
    let offers = flag(b" offers ", rest)?;
    Some(Form::Initiator(HostForm {
        device,
        latency,
        open,
        retries,
        period,
        offset,
        lag,
        offers,
    }))
}

#[tactic(auto, unfolding(crate::specs::Parts::policy_at))]
fn policy(bytes: &[u8]) -> Option<(PolicyForm, &[u8])>
    ensures { Sees (λ x. (x.0, x.1.now)) result (policy_at bytes.now) }
{
    if let Some(rest) = after(b"never", bytes) {
        return Some((PolicyForm::Never, rest));
    }
    if let Some(rest) = after(b"command", bytes) {
        return Some((PolicyForm::Command, rest));
    }
    if let Some((n, rest)) = numbered(b"burst ", bytes) {
        return Some((PolicyForm::Burst(n), rest));
    }
    let (n, rest) = numbered(b"nosave ", bytes)?;
    Some((PolicyForm::NoSave(n), rest))
}

#[tactic(auto, unfolding(crate::specs::Parts::pick_at))]
fn pick(bytes: &[u8]) -> Option<(Pick, &[u8])>
    ensures { Sees (λ x. (x.0, x.1.now)) result (pick_at bytes.now) }
{
    if let Some(rest) = after(b"first", bytes) {
        return Some((Pick::First, rest));
    }
    let rest = after(b"last", bytes)?;
    Some((Pick::Last, rest))
}

#[tactic(auto, unfolding(crate::specs::Forms::target_at))]
fn target_form(line: &[u8]) -> Option<Form<'_>>
    ensures { Sees said result (target_at line.now) }
{
    let (device, rest) = numbered(b"target ", line)?;
    let (latency, rest) = numbered(b" latency ", rest)?;
    let (retries, rest) = numbered(b" retries ", rest)?;
    let rest = after(b" disc ", rest)?;
    let (disc, rest) = policy(rest)?;
    let rest = after(b" pick ", rest)?;
    let (pick, rest) = pick(rest)?;
    let (seek, rest) = numbered(b" seek ", rest)?;
    let (period, rest) = numbered(b" sync ", rest)?;
    let (offset, rest) = numbered(b" ", rest)?;
    let begins = flag(b" begins ", rest)?;
    Some(Form::Target(TargetForm {
        device,
        latency,
        retries,
        disc,
        pick,
        seek,
        period,
        offset,
        begins,
    }))
}

#[tactic(auto, unfolding(crate::specs::Forms::unit_at))]
fn unit_form(line: &[u8]) -> Option<Form<'_>>
    ensures { Sees said result (unit_at line.now) }
{
    let (target, rest) = numbered(b"unit ", line)?;
    let (unit, rest) = numbered(b" ", rest)?;
    let (blocks, rest) = numbered(b" blocks ", rest)?;
    let (size, rest) = numbered(b" size ", rest)?;
    let (depth, rest) = numbered(b" depth ", rest)?;
    whole(rest)?;
    Some(Form::Unit(UnitForm {
        target,
        unit,
        blocks,
        size,
        depth,
    }))
}

#[tactic(auto, unfolding(crate::specs::Forms::fill_at))]
fn fill_form(line: &[u8]) -> Option<Form<'_>>
    ensures { Sees said result (fill_at line.now) }
{
    let (target, rest) = numbered(b"fill ", line)?;
    let (unit, rest) = numbered(b" ", rest)?;
    let (lba, rest) = numbered(b" ", rest)?;
    let rest = after(b" ", rest)?;
    let (digits, rest) = hex_digits(rest)?;
    whole(rest)?;
    Some(Form::Fill(FillForm {
        target,
        unit,
        lba,
        digits,
    }))
}

#[tactic(auto, unfolding(crate::specs::Forms::tape_at))]
fn tape_form(line: &[u8]) -> Option<Form<'_>>
    ensures { Sees said result (tape_at line.now) }
{
    let (target, rest) = numbered(b"tape ", line)?;
    let (unit, rest) = numbered(b" ", rest)?;
    let (objects, rest) = numbered(b" objects ", rest)?;
    let (size, rest) = numbered(b" size ", rest)?;
    let (depth, rest) = numbered(b" depth ", rest)?;
    whole(rest)?;
    Some(Form::Tape(TapeForm {
        target,
        unit,
        objects,
        size,
        depth,
    }))
}

#[tactic(auto, unfolding(crate::specs::Parts::mark_at))]
fn mark(bytes: &[u8]) -> Option<ObjectForm<'_>>
    ensures { Sees object_said result (mark_at bytes.now) }
{
    exactly(b"mark", bytes)?;
    Some(ObjectForm::Mark)
}

#[tactic(auto, unfolding(crate::specs::Parts::block_at))]
fn block(bytes: &[u8]) -> Option<ObjectForm<'_>>
    ensures { Sees object_said result (block_at bytes.now) }
{
    let (digits, rest) = hex_digits(bytes)?;
    whole(rest)?;
    Some(ObjectForm::Block(digits))
}

#[tactic(auto, unfolding(crate::specs::Parts::object_at))]
fn object(bytes: &[u8]) -> Option<ObjectForm<'_>>
    ensures { Sees object_said result (object_at bytes.now) }
{
    if let Some(what) = mark(bytes) {
        return Some(what);
    }
    block(bytes)
}

#[tactic(auto, unfolding(crate::specs::Forms::load_at))]
fn load_form(line: &[u8]) -> Option<Form<'_>>
    ensures { Sees said result (load_at line.now) }
{
    let (target, rest) = numbered(b"load ", line)?;
    let (unit, rest) = numbered(b" ", rest)?;
    let rest = after(b" ", rest)?;
    let what = object(rest)?;
    Some(Form::Load(LoadForm { target, unit, what }))
}

#[tactic(auto, unfolding(crate::specs::Parts::tag_at))]
fn tag(bytes: &[u8]) -> Option<(TagForm, &[u8])>
    ensures { Sees (λ x. (x.0, x.1.now)) result (tag_at bytes.now) }
{
    if let Some(rest) = after(b"untagged", bytes) {
        return Some((TagForm::Untagged, rest));
    }
    if let Some((n, rest)) = numbered(b"simple ", bytes) {
        return Some((TagForm::Simple(n), rest));
    }
    if let Some((n, rest)) = numbered(b"ordered ", bytes) {
        return Some((TagForm::Ordered(n), rest));
    }
    let (n, rest) = numbered(b"head ", bytes)?;
    Some((TagForm::Head(n), rest))
}

#[tactic(auto, unfolding(crate::specs::Parts::nothing_at))]
fn no_payload(bytes: &[u8]) -> Option<PayloadForm<'_>>
    ensures { Sees payload_said result (nothing_at bytes.now) }
{
    exactly(b"none", bytes)?;
    Some(PayloadForm::Nothing)
}

#[tactic(auto, unfolding(crate::specs::Parts::hex_at))]
fn hex_payload(bytes: &[u8]) -> Option<PayloadForm<'_>>
    ensures { Sees payload_said result (hex_at bytes.now) }
{
    let rest = after(b"out hex ", bytes)?;
    let (digits, rest) = hex_digits(rest)?;
    whole(rest)?;
    Some(PayloadForm::Hex(digits))
}

#[tactic(auto, unfolding(crate::specs::Parts::from_at))]
fn from_payload(bytes: &[u8]) -> Option<PayloadForm<'_>>
    ensures { Sees payload_said result (from_at bytes.now) }
{
    let rest = after(b"out from ", bytes)?;
    let (first, rest) = hex_array::<1>(rest)?;
    whole(rest)?;
    Some(PayloadForm::From(first[0]))
}

#[tactic(auto, unfolding(crate::specs::Parts::payload_at))]
fn payload(bytes: &[u8]) -> Option<PayloadForm<'_>>
    ensures { Sees payload_said result (payload_at bytes.now) }
{
    if let Some(payload) = no_payload(bytes) {
        return Some(payload);
    }
    if let Some(payload) = hex_payload(bytes) {
        return Some(payload);
    }
    from_payload(bytes)
}

#[tactic(auto, unfolding(crate::specs::Forms::cmd_at))]
fn cmd_form(line: &[u8]) -> Option<Form<'_>>
    ensures { Sees said result (cmd_at line.now) }
{
    let (host, rest) = numbered(b"cmd ", line)?;
    let (target, rest) = numbered(b" ", rest)?;
    let (unit, rest) = numbered(b" ", rest)?;
    let (at, rest) = numbered(b" at ", rest)?;
    let rest = after(b" ", rest)?;
    let (tag, rest) = tag(rest)?;
    let rest = after(b" cdb ", rest)?;
    let (cdb, rest) = hex_digits(rest)?;
    let rest = after(b" ", rest)?;
    let payload = payload(rest)?;
    Some(Form::Cmd(CmdForm {
        host,
        target,
        unit,
        at,
        tag,
        cdb,
        payload,
    }))
}

#[tactic(auto, unfolding(crate::specs::Parts::what_tag_at))]
fn what_tag(bytes: &[u8]) -> Option<WhatForm>
    ensures { result ≡ what_tag_at bytes.now }
{
    let (n, rest) = numbered(b"tag ", bytes)?;
    whole(rest)?;
    Some(WhatForm::Tag(n))
}

#[tactic(auto, unfolding(crate::specs::Parts::what_at))]
fn what(bytes: &[u8]) -> Option<WhatForm>
    ensures { result ≡ what_at bytes.now }
{
    if let Some(()) = exactly(b"all", bytes) {
        return Some(WhatForm::All);
    }
    if let Some(()) = exactly(b"queue", bytes) {
        return Some(WhatForm::Queue);
    }
    if let Some(()) = exactly(b"device", bytes) {
        return Some(WhatForm::Device);
    }
    what_tag(bytes)
}

#[tactic(auto, unfolding(crate::specs::Forms::abort_at))]
fn abort_form(line: &[u8]) -> Option<Form<'_>>
    ensures { Sees said result (abort_at line.now) }
{
    let (host, rest) = numbered(b"abort ", line)?;
    let (target, rest) = numbered(b" ", rest)?;
    let (unit, rest) = numbered(b" ", rest)?;
    let (at, rest) = numbered(b" at ", rest)?;
    let rest = after(b" ", rest)?;
    let what = what(rest)?;
    Some(Form::Abort(AbortForm {
        host,
        target,
        unit,
        at,
        what,
    }))
}

#[tactic(auto, unfolding(crate::specs::Forms::reset_at))]
fn reset_form(line: &[u8]) -> Option<Form<'_>>
    ensures { Sees said result (reset_at line.now) }
{
    let (device, rest) = numbered(b"reset ", line)?;
    let (at, rest) = numbered(b" at ", rest)?;
    whole(rest)?;
    Some(Form::Reset(ResetForm { device, at }))
}

#[tactic(auto, unfolding(crate::specs::Forms::fault_at))]
fn fault_form(line: &[u8]) -> Option<Form<'_>>
    ensures { Sees said result (fault_at line.now) }
{
    let (at, rest) = numbered(b"fault at ", line)?;
    let (bit, rest) = numbered(b" bit ", rest)?;
    whole(rest)?;
    Some(Form::Fault(FaultForm { at, bit }))
}

#[tactic(auto, unfolding(crate::specs::Forms::end_at))]
fn end_form(line: &[u8]) -> Option<Form<'_>>
    ensures { Sees said result (end_at line.now) }
{
    exactly(b"end", line)?;
    Some(Form::End)
}

// The lines that declare what is there.
fn declared_form(line: &[u8]) -> Option<Form<'_>>
    ensures { Sees said result (declared_at line.now) }
{
    if let Some(form) = scsi_form(line) {
        return Some(form);
    }
    if let Some(form) = initiator_form(line) {
        return Some(form);
    }
    if let Some(form) = target_form(line) {
        return Some(form);
    }
    if let Some(form) = unit_form(line) {
        return Some(form);
    }
    if let Some(form) = fill_form(line) {
        return Some(form);
    }
    if let Some(form) = tape_form(line) {
        return Some(form);
    }
    load_form(line)
}

// The lines that say what happens, and the last line.
fn happens_form(line: &[u8]) -> Option<Form<'_>>
    ensures { Sees said result (happens_at line.now) }
{
    if let Some(form) = cmd_form(line) {
        return Some(form);
    }
    if let Some(form) = abort_form(line) {
        return Some(form);
    }
    if let Some(form) = reset_form(line) {
        return Some(form);
    }
    if let Some(form) = fault_form(line) {
        return Some(form);
    }
    end_form(line)
}

/// What the line says, if it has one of the forms of some version.
pub(crate) fn form_of(line: &[u8]) -> Option<Form<'_>>
    ensures { Sees said result (form_of line.now) }
{
    if let Some(form) = declared_form(line) {
        return Some(form);
    }
    happens_form(line)
}
