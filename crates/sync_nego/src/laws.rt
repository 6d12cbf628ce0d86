//! Laws of exchanges, each named by the contract of a function that does nothing.
ghost use Rattle.std.specs.Prelude.{ℕ, ◌≡◌, Bool, true, List, Some};
ghost use Rattle.bus_trace.specs.declared.agreements.Agreement.{Agreement};
ghost use Rattle.bus_trace.specs.Agreements.{same_agreement};
ghost use Rattle.bus_trace.specs.declared.Row.{Row};
ghost use Rattle.dialogue_model.specs.bus_phases.specs.declared.words.End.{End};
ghost use Rattle.dialogue_model.specs.bus_phases.specs.declared.words.End.TheVariants as ends;
ghost use Rattle.dialogue_model.specs.bus_phases.specs.declared.words.Word.{Word};
ghost use Rattle.dialogue_model.specs.scenario.specs.declared.value.TargetDef.{TargetDef};
ghost use Rattle.dialogue_model.specs.story_model.specs.CurrentAgreement.{current_agreement};
ghost use Rattle.dialogue_model.specs.Words.{reply_to};
ghost use Rattle.sync_nego.specs.Rows.{turns};
ghost use Rattle.sync_nego.specs.Negotiation.{answer_to, agreed_by, settled, reply_by};
ghost use Rattle.sync_nego.specs.Exchange.{Turn, told_agreement, side, in_void, asked, answered, answered_back};

/// After any exchange each end holds the agreement that the messages tell by the rules, whatever it offers itself and
/// whether it offers again after a reset; so both hold the same.
#[tactic(auto, using(crate::proofs::Following::holds_what_is_told, crate::proofs::Following::hold_the_same))]
pub fn ends_hold_what_is_told()
    ensures told { (renews : Bool) (end : End) (own : Agreement) (turns : List Turn)
        → same_agreement (side renews end own turns).nego.agreed (told_agreement turns) ≡ true }
    ensures same { (renews again : Bool) (i t : Agreement) (turns : List Turn)
        → same_agreement (side renews ends.Initiator i turns).nego.agreed
        (side again ends.Target t turns).nego.agreed ≡ true }
{}

/// The rows of a trace, lawful or not, make an exchange of each initiator with each target, and what they tell
/// of the agreement of the two is what this exchange tells; so both ends hold what the rows tell.
#[tactic(auto, using(crate::proofs::Telling::given_is_told, crate::proofs::Telling::holds_given))]
pub fn ends_hold_what_rows_tell()
    ensures told { (rows : List Row) (i t : ℕ) → current_agreement rows i t ≡ told_agreement (turns rows i t) }
    ensures held { (renews : Bool) (end : End) (own : Agreement) (rows : List Row) (i t : ℕ)
        → same_agreement (side renews end own (turns rows i t)).nego.agreed (current_agreement rows i t) ≡ true }
{}

/// A request settles both ends on its answer, or on asynchronous transfer where it is rejected, and so do its
/// messages by the rules: the initiator's, whatever crossed before and after any number of void answers, during
/// which nothing is settled; and the target's, after any number of void requests.
#[tactic(auto, using(crate::proofs::Negotiating::settles, crate::proofs::Negotiating::told_answer, crate::proofs::Negotiating::stays_void, crate::proofs::Negotiating::settles_back, crate::proofs::Negotiating::told_answer_back))]
pub fn requests_settle_both_ends()
    ensures settled { (n : ℕ) (renews : Bool) (end : End) (own i t : Agreement) (turns : List Turn)
        → (side renews end own (answered n i t turns)).nego
        ≡ settled (side renews end own turns).nego (answer_to t i) }
    ensures told { (n : ℕ) (i t : Agreement) (turns : List Turn)
        → same_agreement (told_agreement (answered n i t turns)) (agreed_by (answer_to t i)) ≡ true }
    ensures void { (n : ℕ) (word : Word) (renews : Bool) (end : End) (own i : Agreement) (turns : List Turn)
        → (side renews end own (in_void n word (asked i turns))).nego ≡ (side renews end own turns).nego }
    ensures settled_back { (n : ℕ) (renews : Bool) (end : End) (own i t : Agreement) (turns : List Turn)
        → (side renews end own (answered_back n i t turns)).nego
        ≡ settled (side renews end own turns).nego (answer_to i t) }
    ensures told_back { (n : ℕ) (i t : Agreement) (turns : List Turn)
        → same_agreement (told_agreement (answered_back n i t turns)) (agreed_by (answer_to i t)) ≡ true }
{}

/// What a target replies to a request is its answer, and MESSAGE REJECT where there is none.
pub fn replies_are_answers()
    ensures { (t : TargetDef) (offer : Agreement)
        → reply_to (Some t) offer ≡ reply_by (answer_to (record { period = t.period; offset = t.offset }) offer) }
{}
