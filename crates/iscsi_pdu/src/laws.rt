//! What holds of the grammar.

ghost use Rattle.std.specs.Prelude.{◌≡◌, ◌++◌, ℕ, ◌≤◌, List, length};
ghost use Rattle.iscsi_pdu.specs.declared.header.Header.{Header};
ghost use Rattle.iscsi_pdu.specs.declared.header.Header.TheVariants.{Target};
ghost use Rattle.iscsi_pdu.specs.declared.header.TargetHeader.{TargetHeader};
ghost use Rattle.iscsi_pdu.specs.declared.TheConstants.{MAX_DATA_SEGMENT_LENGTH};
ghost use Rattle.iscsi_pdu.specs.Pdu.{IsPdu};
ghost use Rattle.iscsi_pdu.specs.Range.{IsInRange};
ghost use Rattle.iscsi_pdu.specs.Spelling.{spelling};

/// No spelling of a PDU begins the spelling of another.
pub fn one_front()
    ensures { (a b x y : List ℕ) (h k : Header) (d e : List ℕ) → IsPdu a h d → IsPdu b k e → a ++ x ≡ b ++ y → a ≡ b }
{}

/// Bytes spell one PDU at most.
pub fn one_pdu()
    ensures { (b : List ℕ) (h k : Header) (d e : List ℕ) → IsPdu b h d → IsPdu b k e → (h ≡ k) × (d ≡ e) }
{}

/// What `spelling` gives of a PDU spells it, where its fields are in their ranges and its flags are right.
pub fn spelled()
    ensures { (h : Header) (d : List ℕ) → IsInRange h → length d ≤ MAX_DATA_SEGMENT_LENGTH → IsPdu (spelling h d) h d }
{}

/// A target's PDU has one spelling.
pub fn one_spelling()
    ensures { (b : List ℕ) (h : TargetHeader) (d : List ℕ) → IsPdu b (Target h) d → b ≡ spelling (Target h) d }
{}
