//! What the facts of a legal login refuse: of short ones that differ, one is legal (RFC 7143).
ghost use Rattle.std.specs.Prelude.{◌≡◌, ◌∷◌};
ghost use Rattle.session_rules.specs.Words.{ℕ, List, [], None, Option, Refused, TargetRecord, LoginOutcome, Opening, InvalidDuringLogin};
ghost use Rattle.session_rules.specs.Asking.{Asking};
ghost use Rattle.session_rules.specs.Turn.{Out, Turn};
ghost use Rattle.session_rules.specs.LoginPhase.{LoginTurn};
ghost use Rattle.session_rules.specs.Phases.{IsLawful};
ghost use Rattle.session_rules.specs.Examples.{ping_in_login, login_of, the_refusal, turned_away_in_login};

/// A NOP-Out that comes before the login is over: the target is asked nothing, and one Login Response refuses the login with
/// status 020B; nothing comes behind it. Any other call, outcome or PDU is illegal.
pub fn a_nop_out_in_a_login_has_one_legal_answer()
    ensures legal { (units : ℕ) (me : TargetRecord) (tag : ℕ)
        → IsLawful units me (Opening.Login tag) (login_of (turned_away_in_login ∷ [])) }
    ensures no_other { (units : ℕ) (me : TargetRecord) (tag : ℕ) (call : Option Asking) (outcome : LoginOutcome)
        (outs : List Out) → IsLawful units me (Opening.Login tag) (login_of (ping_in_login call outcome outs ∷ []))
        → (call ≡ None) × (outcome ≡ LoginOutcome.Refused InvalidDuringLogin) × (outs ≡ the_refusal) }
    ensures last { (units : ℕ) (me : TargetRecord) (tag : ℕ) (l : LoginTurn)
        → IsLawful units me (Opening.Login tag) (login_of (turned_away_in_login ∷ (l ∷ []))) → ⊥ }
    ensures first { (units : ℕ) (me : TargetRecord) (tag : ℕ) (t : Turn)
        → IsLawful units me (Opening.Login tag) (record { logins = turned_away_in_login ∷ []; turns = t ∷ [] }) → ⊥ }
{}
