//! What the reasons mean for which a text is refused.
ghost use Rattle.std.specs.Prelude.{◌≡◌};
ghost use Rattle.scenario.specs.ReasonText.{reason_text};

/// What a reason means, in words. Each number but 1 to 8 is told as the last reason, 9.
pub(crate) fn meaning(reason: u8) -> &'static str
    ensures { result.now ≡ reason_text reason }
{
    match reason {
        1 => "a byte other than 20 to 7e",
        2 => "a line of none of the forms, or a text that is over before its end",
        3 => "a line of a kind that is out of order",
        4 => "a number outside its limits, or a command block of another group or length",
        5 => "a device, unit, tape or block that stood before",
        6 => "a device, unit or tape that was not declared",
        7 => "bytes that do not fit: out, fill or load",
        8 => "a line more than the limit of its kind, or a need above the limit",
        _ => "a text of more than 4,194,304 bytes",
    }
}
