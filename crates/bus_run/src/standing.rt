//! Rows that leave a connection and RST as they are.
ghost use Rattle.std.specs.Prelude.{◌≡◌, ◌∷◌, List, IfSome};
ghost use Rattle.bus_trace.specs.declared.Row.{Row};
ghost use Rattle.due_model.specs.dialogue_model.specs.Observer.{IsObserverOf};
ghost use Rattle.bus_run.specs.Standing.{is_end, IsKept, is_calm, kept_by};

use bus_base::Dev;
use bus_lines::RowEffect;
use bus_trace::Connection;
use due_model::the_dialogue_model::Observer;

/// Whether the device of this ID is the initiator or the target of a connection.
pub fn is_end(connection: &Connection, dev: Dev) -> bool
    ensures { result ≡ is_end connection.now dev }
{
    connection.initiator.get() == dev || connection.target.get() == dev
}

// Whether a connection stands after the row, and RST was and is false.
fn is_calm(effect: &RowEffect) -> bool
    ensures { result ≡ is_calm effect.now }
{
    effect.after.is_some() && !effect.change.before.rst() && !effect.change.after.rst()
}

fn kept_by(effect: &RowEffect, dev: Dev) -> Option<Connection>
    ensures { result ≡ kept_by effect.now dev }
{
    match &effect.before {
        Some(connection) if is_calm(effect) && is_end(connection, dev) => Some(*connection),
        _ => None,
    }
}

/// The connection that the last row, of this device, left as it was, where this is one of its two ends, and RST was and
/// is false. The observer has seen the row.
pub fn connection_kept(observer: &Observer, dev: Dev) -> Option<Connection>
    ensures { (rows : List Row) (row : Row) → IsObserverOf (row ∷ rows) observer.now → dev ≡ row.dev
        → IfSome result (λ n. IsKept rows row n) }
{
    kept_by(observer.view().effect(), dev)
}
