//! Worked cases, computed from the definitions, whose results come from an independent program, or, of small ones, from
//! what docs/array.md, docs/story.md and docs/behaviour.md say; there is no code here.
//!
//! `proofs/RuleCases.antt` has the verdicts of small traces: for each rule of `bus_rules` one that breaks it, and
//! beside it one that keeps it by a nanosecond or a line. `proofs/RunCases.antt` has whole runs that what is due makes
//! (`due_model`), from their scenarios alone, and `proofs/SeamCases.antt` what holds after each of their rows.
//! `proofs/GuardCases.antt` has further whole runs, each of which decides a condition of the definitions that no other
//! does; so do small histories on the plain disk array (`proofs/ArrayCases.antt`), bytes that are not right
//! (`proofs/RightCases.antt`), what the two ends of a connection know on small records (`proofs/DialogueCases.antt`),
//! and small states of what a trace tells (`proofs/StoryCases.antt`) and of what is kept from row to row
//! (`proofs/DueCases.antt`). They stand here, where nothing is edited to fail, so that they are computed once; those
//! that refuse the edits of `due_model` stand there.
#![tactic(auto)]
