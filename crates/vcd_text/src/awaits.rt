//! What the next token of a dump has to be.
use bus_trace::Lines;

/// What the next token of a dump has to be.
#[derive(Clone, Copy)]
pub(crate) enum Awaits {
    /// The keyword of a declaration.
    Declaration,
    /// A token of `$date`, `$version` or `$comment`, or their `$end`.
    Remark,
    /// The unit of `$timescale`, `1ns`, or its `1`.
    Timescale,
    /// The `ns` after that.
    Nanoseconds,
    /// The kind of a scope.
    ScopeKind,
    /// The name of a scope.
    ScopeName,
    /// The `$end` of a declaration.
    End,
    /// The kind of a variable.
    VarKind,
    /// The width of a variable.
    VarWidth,
    /// The code of a variable, which has eighteen lines or not.
    VarCode(bool),
    /// The name of that variable.
    VarName(bool),
    /// The range of a variable, or the `$end` of its declaration.
    VarRange,
    /// The `$end` of `$enddefinitions`.
    LastEnd,
    /// A change.
    Change,
    /// A token of a `$comment` among the changes, or its `$end`.
    ChangeRemark,
    /// The code after a value: of a device, where the value is its lines.
    Code(Option<Lines>),
}
