// The resets of a device (6.2.2).
ghost use Rattle.std.specs.Prelude.{◌≡◌};
ghost use Rattle.reaction_model.specs.Reactions.{sooner_time};
ghost use Rattle.due_model.specs.Due.{is_reset_past, reset_from};

use bus_base::{Dev, Ns};
use scenario::ResetDef;

/// The sooner of two times, where there are such.
pub fn sooner_time(first: Option<Ns>, other: Option<Ns>) -> Option<Ns>
    ensures { result ≡ sooner_time first other }
{
    match (first, other) {
        (None, other) => other,
        (first, None) => first,
        (Some(first), Some(other)) => Some(first.min(other)),
    }
}

fn is_reset_past(released: Option<Ns>, time: Ns) -> bool
    ensures { result ≡ is_reset_past released time }
{
    match released {
        None => false,
        Some(released) => time <= released,
    }
}

/// When a device drives RST next, in ns, by these lines: one that falls while it drives RST, or as it releases it,
/// which it last did at `released`, is dropped.
pub fn next_reset(dev: Dev, released: Option<Ns>, resets: &[ResetDef]) -> Option<Ns>
    ensures { result ≡ reset_from dev released resets.now }
{
    let mut next = None;
    for def in resets {
        if def.dev == dev && !is_reset_past(released, def.at) {
            next = sooner_time(next, Some(def.at));
        }
    }
    next
}
