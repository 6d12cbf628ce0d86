//! A device of ours on a bus with devices of others: what is to be proved of it, in definitions, and worked cases of
//! them; there is no code here.
//!
//! `specs/Playing.antt` says that a device makes just the rows that are due of it, whatever rows the others make, and
//! `specs/Blame.antt` whose fault the first broken row of a trace is. `IsHarmless` is the statement that joins them.
//! `proofs/MixedTraces.antt` computes both on small traces, whose verdicts come from an independent program, for a
//! target that answers selections (`specs/Answering.antt`). `docs/mixed_model.md` says what they are for.
#![tactic(auto)]
