//! What the definitions say, in the words of RFC 7143.
ghost use Rattle.std.specs.Prelude.{◌≡◌, ◌≤◌, ◌⊎◌, ◌↔◌, ◌++◌, ℕ, List, Bool, true, false, IsTrue, Some, None, IsSome, codes, decimal};
ghost use Rattle.login.specs.Parameters.{parameters_of, flag_text, IsInForce, IsReliedOn};
ghost use Rattle.login.specs.Text.{Pair, ArePairs, is_text, pairs, text_of, found};
ghost use Rattle.login.specs.Number.{number_within, flag_in};
ghost use Rattle.login.specs.Value.{agreed};
ghost use Rattle.login.specs.Answer.{answers, verdict_of};
ghost use Rattle.login.specs.Progress.{Progress};
ghost use Rattle.login.specs.Refusal.{refusal_in};
ghost use Rattle.login.specs.Request.{after, response, length_text, tells_length};
ghost use Rattle.login.specs.declared.status.SessionType.{SessionType};
ghost use Rattle.login.specs.declared.status.LoginFlags.{LoginFlags};
ghost use Rattle.login.specs.declared.value.Limits.{Limits as Bounds};
ghost use Rattle.login.specs.declared.value.Rule.TheVariants.{Least, Greatest, Either, Both};
ghost use Rattle.login.specs.declared.value.Value.TheVariants.{Number, Flag};

/// What pairs spell is a text, and is read as those pairs; and a text is what its pairs spell (RFC 7143, 6.1). So a
/// text and its pairs tell each other.
pub fn a_text_and_its_pairs()
    ensures text { (ps : List Pair) → ArePairs ps → is_text (text_of ps) ≡ true }
    ensures read { (ps : List Pair) → ArePairs ps → pairs (text_of ps) ≡ ps }
    ensures spelled { (text : List ℕ) → is_text text ≡ true → text_of (pairs text) ≡ text }
{}

/// A number that is negotiated is one of both offers, and the lesser or the greater of them (RFC 7143, 6.2.2); an offer
/// is taken only within the key's range.
pub fn numbers_that_are_negotiated()
    ensures range { (limits : Bounds) (value : List ℕ) (offer : ℕ) → number_within limits value ≡ Some offer
        → (limits.low ≤ offer) × (offer ≤ limits.high) }
    ensures least { (limits : Bounds) (value : List ℕ) (offer chosen : ℕ) → number_within limits value ≡ Some offer
        → agreed (Least limits) value ≡ Some (Number chosen)
        → (chosen ≤ offer) × (chosen ≤ limits.own) × ((chosen ≡ offer) ⊎ (chosen ≡ limits.own)) }
    ensures greatest { (limits : Bounds) (value : List ℕ) (offer chosen : ℕ) → number_within limits value ≡ Some offer
        → agreed (Greatest limits) value ≡ Some (Number chosen)
        → (offer ≤ chosen) × (limits.own ≤ chosen) × ((chosen ≡ offer) ⊎ (chosen ≡ limits.own)) }
{}

/// A boolean that is negotiated is Yes where one side says Yes, or where both do, by its rule (RFC 7143, 6.2.2).
pub fn booleans_that_are_negotiated()
    ensures either { (own : Bool) (value : List ℕ) (offer chosen : Bool) → flag_in value ≡ Some offer
        → agreed (Either own) value ≡ Some (Flag chosen) → IsTrue chosen ↔ (IsTrue offer ⊎ IsTrue own) }
    ensures both { (own : Bool) (value : List ℕ) (offer chosen : Bool) → flag_in value ≡ Some offer
        → agreed (Both own) value ≡ Some (Flag chosen) → IsTrue chosen ↔ (IsTrue offer × IsTrue own) }
{}

/// Behind the first request that is answered, C apart, the session type is known; from then on the target does not say
/// its TargetPortalGroupTag again (RFC 7143, 13.9), and once it declared its MaxRecvDataSegmentLength, not that either.
pub fn what_the_target_says_once()
    ensures known { (s : Progress) (f : LoginFlags) (text : List ℕ) → refusal_in s f (s.run_text ++ text) ≡ None
        → f.continues ≡ false → IsSome (after s f text).kind }
    ensures tag { (s : Progress) (f : LoginFlags) (ps : List Pair) (kind : SessionType) → s.kind ≡ Some kind
        → response s f ps ≡ length_text (tells_length s f) ++ answers ps }
    ensures length { (s : Progress) (f : LoginFlags) → s.length_declared ≡ true → tells_length s f ≡ false }
{}

/// What is answered to an offer of MaxBurstLength, FirstBurstLength or ImmediateData is the value in force, or Reject: then
/// the default stands (RFC 7143, 6.2). So each length that a login announces is the one by which data is cut.
pub fn what_is_announced_is_in_force()
    ensures burst { (ps : List Pair) (offer told : List ℕ) → found (codes "MaxBurstLength") ps ≡ Some offer
        → verdict_of (codes "MaxBurstLength") offer ≡ Some told
        → IsInForce told (decimal (parameters_of ps).max_burst_length) ((parameters_of ps).max_burst_length ≡ 262144) }
    ensures first_burst { (ps : List Pair) (offer told : List ℕ) → found (codes "FirstBurstLength") ps ≡ Some offer
        → verdict_of (codes "FirstBurstLength") offer ≡ Some told
        → IsInForce told (decimal (parameters_of ps).first_burst_length) ((parameters_of ps).first_burst_length ≡ 65536) }
    ensures immediate_data { (ps : List Pair) (offer told : List ℕ) → found (codes "ImmediateData") ps ≡ Some offer
        → verdict_of (codes "ImmediateData") offer ≡ Some told
        → IsInForce told (flag_text (parameters_of ps).immediate_data) ((parameters_of ps).immediate_data ≡ true) }
{}

/// Whatever is offered, a negotiation comes to the values that a session relies on: InitialR2T, DataPDUInOrder and
/// DataSequenceInOrder are Yes, MaxConnections and MaxOutstandingR2T are 1, and ErrorRecoveryLevel is 0 (RFC 7143, 13).
pub fn what_every_negotiation_comes_to()
    ensures { (ps : List Pair) → IsReliedOn (parameters_of ps) }
{}
