//! Numbers within their limits, and other tests of one line.
ghost use Rattle.std.specs.Prelude.{◌≡◌, ◌≤◌, ◌<◌, ◌-◌, ◌^◌, IfOk};
ghost use Rattle.text_words.specs.Words.{bytes_of};
ghost use Rattle.std.specs.List.{list_all};
ghost use Rattle.scenario.specs.Reading.{Gives, Refuses, guard, within, in_8, time_in, period_in, is_size, size_in, policy_in, tag_in, what_in, is_block, answer_or, is_printable, is_skipped};

use crate::bounds::{
    BURST_LIMIT, FACTOR_LIMIT, LEAST_FACTOR, LEAST_SIZE, SIZE_LIMIT, TAG_LIMIT, TIME_LIMIT,
};
use crate::fault::Refusal;
use crate::form::{PolicyForm, TagForm, WhatForm};
use crate::value::{Policy, Tag};
use bus_base::AbortKind;
use cdb_codec::group_len;
use std::alloc::{AllocError, Global};
use text_words::{Number, decode};

/// Refuses what does not hold, for this reason.
pub(crate) fn require(reason: u8, holds: bool) -> Result<(), Refusal>
    ensures { Gives (λ x. x) result (guard reason holds) }
{
    if holds {
        Ok(())
    } else {
        Err(Refusal::Reason(reason))
    }
}

/// A number from `least` to `most`.
pub(crate) fn within(number: Number, least: u64, most: u64) -> Result<u64, Refusal>
    ensures exact { Gives (λ n. n) result (within number least most) }
    ensures bound { IfOk result (λ n. n ≤ most) }
{
    match number {
        Some(n) if least <= n && n <= most => Ok(n),
        _ => Err(Refusal::Reason(4)),
    }
}

/// A device or a unit.
pub(crate) fn in_8(number: Number) -> Result<u8, Refusal>
    ensures exact { Gives (λ n. n) result (in_8 number) }
    ensures bound { IfOk result (λ n. n < 8) }
{
    let n = within(number, 0, 7)?;
    Ok(n as u8)
}

/// A small number, up to `most`.
pub(crate) fn small(number: Number, least: u32, most: u32) -> Result<u32, Refusal>
    ensures { Gives (λ n. n) result (within number least most) }
{
    let n = within(number, u64::from(least), u64::from(most))?;
    Ok(n as u32)
}

/// A byte, up to `most`.
pub(crate) fn byte(number: Number, most: u8) -> Result<u8, Refusal>
    ensures { Gives (λ n. n) result (within number 0 most) }
{
    let n = within(number, 0, u64::from(most))?;
    Ok(n as u8)
}

/// A time, in ns.
pub(crate) fn time_in(number: Number) -> Result<u64, Refusal>
    ensures { Gives (λ n. n) result (time_in number) }
{
    within(number, 0, TIME_LIMIT)
}

/// A transfer period factor.
#[tactic(auto, unfolding(crate::specs::Reading::period_in))]
pub(crate) fn period_in(number: Number) -> Result<u8, Refusal>
    ensures { Gives (λ n. n) result (period_in number) }
{
    let n = byte(number, FACTOR_LIMIT)?;
    require(4, n == 0 || LEAST_FACTOR <= n)?;
    Ok(n)
}

fn is_size(n: u32) -> bool
    ensures { result ≡ is_size n }
{
    [16, 32, 64, 128, 256, 512, 1024, 2048].contains(&n)
}

/// A block size.
#[tactic(auto, unfolding(crate::specs::Reading::size_in))]
pub(crate) fn size_in(number: Number) -> Result<u32, Refusal>
    ensures { Gives (λ n. n) result (size_in number) }
{
    let n = small(number, LEAST_SIZE, SIZE_LIMIT)?;
    require(4, is_size(n))?;
    Ok(n)
}

/// A policy.
#[tactic(auto, unfolding(crate::specs::Reading::policy_in))]
pub(crate) fn policy_in(form: PolicyForm) -> Result<Policy, Refusal>
    ensures { Gives (λ x. x) result (policy_in form) }
{
    match form {
        PolicyForm::Never => Ok(Policy::Never),
        PolicyForm::Command => Ok(Policy::Command),
        PolicyForm::Burst(k) => {
            let n = small(k, 1, BURST_LIMIT)?;
            Ok(Policy::Burst(n))
        }
        PolicyForm::NoSave(k) => {
            let n = small(k, 1, BURST_LIMIT)?;
            Ok(Policy::NoSave(n))
        }
    }
}

/// A tag.
#[tactic(auto, unfolding(crate::specs::Reading::tag_in))]
pub(crate) fn tag_in(form: TagForm) -> Result<Tag, Refusal>
    ensures { Gives (λ x. x) result (tag_in form) }
{
    match form {
        TagForm::Untagged => Ok(Tag::Untagged),
        TagForm::Simple(t) => {
            let n = byte(t, TAG_LIMIT)?;
            Ok(Tag::Simple(n))
        }
        TagForm::Ordered(t) => {
            let n = byte(t, TAG_LIMIT)?;
            Ok(Tag::Ordered(n))
        }
        TagForm::Head(t) => {
            let n = byte(t, TAG_LIMIT)?;
            Ok(Tag::Head(n))
        }
    }
}

/// What is aborted.
#[tactic(auto, unfolding(crate::specs::Reading::what_in))]
pub(crate) fn what_in(form: WhatForm) -> Result<AbortKind, Refusal>
    ensures { Gives (λ x. x) result (what_in form) }
{
    match form {
        WhatForm::All => Ok(AbortKind::All),
        WhatForm::Tag(t) => {
            let n = byte(t, TAG_LIMIT)?;
            Ok(AbortKind::Tag(n))
        }
        WhatForm::Queue => Ok(AbortKind::WholeQueue),
        WhatForm::Device => Ok(AbortKind::Device),
    }
}

/// Whether the bytes are of group 0 or 1 and have their group's length.
pub(crate) fn is_block(bytes: &[u8]) -> bool
    ensures { result ≡ is_block bytes.now }
{
    match bytes {
        [] => false,
        [first, ..] => match group_len(*first) {
            Some(len) => len == bytes.len(),
            None => false,
        },
    }
}

/// What the line answer_or, or `otherwise`.
pub(crate) fn answer_or(otherwise: bool, said: Option<bool>) -> bool
    ensures { result ≡ answer_or otherwise said }
{
    match said {
        Some(yes) => yes,
        None => otherwise,
    }
}

/// The bytes that hexadecimal digits spell.
pub(crate) fn decoded(alloc: Global, digits: &[u8]) -> Result<Vec<u8>, AllocError>
    ensures { IfOk result (λ v. v.items ≡ bytes_of digits.now) }
{
    let len = digits.len() / 2;
    let mut bytes = vec![in alloc; 0; len]?;
    decode(&digits[..len * 2], &mut bytes);
    Ok(bytes)
}

fn is_printable(byte: u8) -> bool
    ensures { result ≡ is_printable byte }
{
    0x20 <= byte && byte <= 0x7e
}

/// Whether each byte is one of 20 to 7e. It looks at all of them, so that the compiler can take many at once.
pub(crate) fn are_printable(text: &[u8]) -> bool
    ensures { result ≡ list_all is_printable text.now }
{
    let mut are = true;
    for byte in text {
        are &= is_printable(*byte);
    }
    are
}

/// Whether the line answer_or nothing.
pub(crate) fn is_skipped(text: &[u8]) -> bool
    ensures { result ≡ is_skipped text.now }
{
    match text {
        [] => true,
        [first, ..] => *first == b'#',
    }
}
