//! Laws of prompt traces: valid commands end GOOD, others with the sense of what is wrong with them; each outcome is
//! exactly that of the first row that ends its command, and of the command's own reply, and has its cause; a phase with
//! wrong parity is left to try again, or to give up, by the target's limit; what an initiator says first is its
//! opening; and RST begins by the reset lines alone.
#![tactic(auto)]

mod laws;

pub use laws::{
    arrivals_are_by_room, calm_scenarios_have_calm_histories, disks_check_what_is_not_valid,
    ended_traces_are_right, invalid_commands_are_checked, open_commands_are_within_limits,
    openings_are_said, outcomes_are_exact, outcomes_have_causes, recoveries_are_due,
    replies_are_given, replies_last, resets_are_by_lines, roomy_scenarios_refuse_nothing,
    senseless_checks_were_stopped, senses_are_their_own, unanswered_commands_were_struck,
    unrefused_commands_are_delivered, valid_commands_are_delivered, valid_commands_run_good,
};

// Handed on to the crates above that list this one and not these.
pub use progress_laws as the_progress_laws;
pub use progress_laws::{the_book_laws, the_trace_laws};
pub use right_laws as the_right_laws;
