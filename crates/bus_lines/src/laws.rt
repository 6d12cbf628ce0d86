// Laws of the view that devices have, each named by the contract of a function that does nothing.

ghost use Rattle.std.specs.Prelude.{ℕ, ◌<◌, ◌≤◌, length, List};
ghost use Rattle.std.specs.List.{AllByRecursion};
ghost use Rattle.bus_trace.specs.declared.Row.{Row};
ghost use Rattle.bus_lines.specs.Handshakes.{handshakes};
ghost use Rattle.bus_lines.specs.BusView.{BusViewValue, IsBusViewOf};
ghost use Rattle.bus_lines.specs.Timely.{IsTimely};

/// Where all rows come before a time, so do all times of the view that devices have of them.
pub fn views_are_timely()
    ensures { (end : ℕ) → 0 < end → (rows : List Row) (v : BusViewValue) → IsBusViewOf rows v
        → AllByRecursion (λ (row : Row). row.time < end) rows → IsTimely end v }
{}

/// No more than 255 requests wait, whatever the rows.
pub fn few_requests_wait()
    ensures { (rows : List Row) → length (handshakes rows).waiting ≤ 255 }
{}
