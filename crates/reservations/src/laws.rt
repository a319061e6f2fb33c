//! What the table of PERSISTENT RESERVE OUT says, in a storage engineer's words.
ghost use Rattle.std.specs.Prelude.{◌≡◌, ◌+◌, ◌%◌, ◌^◌, nat_eq, if◌then◌else◌, IsTrue, IsFalse, List, Some, None};
ghost use Rattle.scsi_types.specs.Nexus.{Nexus};
ghost use Rattle.reservations.specs.declared.request.PrOut.{PrOut};
ghost use Rattle.registrants.specs.Nexus.{same_nexus};
ghost use Rattle.reservations.specs.Notice.{Told, code_told};
ghost use Rattle.registrants.specs.Registry.{IsSound, RegistryValue, key_of};
ghost use Rattle.reservations.specs.Table.{Conflicting, Done, IsPreempting, effect_of, is_counted, is_registering, shows_key};

/// A registry stays sound: its registrants in order, at most 64 and with keys, its reservation held by a registrant.
pub fn soundness_stays()
    ensures { (r : RegistryValue) (n : Nexus) (q : PrOut) (new : RegistryValue) (told : List Told)
        → effect_of r n q ≡ Done new told → IsSound r.registrants r.reservation
        → IsSound new.registrants new.reservation }
{}

/// The sender is never told of what it did.
pub fn the_sender_is_not_told()
    ensures { (r : RegistryValue) (n : Nexus) (q : PrOut) (new : RegistryValue) (told : List Told)
        → effect_of r n q ≡ Done new told → code_told told n ≡ None }
{}

/// After a PREEMPT of a key, at most the sender is left with it: the victim is not, through whatever port.
pub fn a_preempted_key_is_gone()
    ensures { (r : RegistryValue) (n : Nexus) (q : PrOut) (new : RegistryValue) (told : List Told) (m : Nexus)
        → IsPreempting q.action → IsFalse (nat_eq q.sakey 0) → effect_of r n q ≡ Done new told
        → key_of new.registrants m ≡ Some q.sakey → IsTrue (same_nexus m n) }
{}

/// PRGENERATION counts each GOOD of an action that may change registrations, and no other (SPC-4, 5.13.3).
pub fn the_generation_counts()
    ensures { (r : RegistryValue) (n : Nexus) (q : PrOut) (new : RegistryValue) (told : List Told)
        → effect_of r n q ≡ Done new told
        → new.generation ≡ (if is_counted q.action then (r.generation + 1) % 2 ^ 32 else r.generation) }
{}

/// A registration conflicts only where the sender's nexus shows another key than its own (SPC-4, 6.16.3): with ALL_TG_PT
/// too, whatever the other nexus of its port is registered with.
pub fn the_sender_decides_a_conflict()
    ensures { (r : RegistryValue) (n : Nexus) (q : PrOut) → IsTrue (is_registering q.action)
        → effect_of r n q ≡ Conflicting → IsFalse (shows_key q.action (key_of r.registrants n) q.key) }
{}
