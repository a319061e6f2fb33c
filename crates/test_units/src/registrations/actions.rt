//! Each action by each kind of nexus: the holder, the same port through the other group, the same name with another
//! ISID, another registrant, and one that isn't registered.

/// Rows as `run.rt` says.
pub fn rows() -> &'static str {
    "
# A holds type 5 with the key 11h; its port is registered with that key through the other group too, and B with 22h.
each action
A Register 0 0 11; Good;; 1; 11; 0 0
A_TWO Register 0 0 11; Good;; 2; 11 11; 0 0
B Register 0 0 22; Good;; 3; 11 11 22; 0 0
A Reserve 5 11 0; Good;; 3; 11 11 22; 11 5
each
# Register
A Register 0 11 44; Good;; 4; 44 11 22; 44 5
A Register 0 11 11; Good;; 4; 11 11 22; 11 5
A Register 0 0 44; Conflict;; 3; 11 11 22; 11 5
A Register 0 11 0; Good; A_TWO:ReservationsReleased B:ReservationsReleased; 4; 11 22; 0 0
A_TWO Register 0 11 0; Good;; 4; 11 22; 11 5
B Register 0 22 33; Good;; 4; 11 11 33; 11 5
B Register 0 11 33; Conflict;; 3; 11 11 22; 11 5
A_ISID Register 0 0 55; Good;; 4; 11 11 55 22; 11 5
A_ISID Register 0 11 55; Conflict;; 3; 11 11 22; 11 5
C Register 0 0 0; Good;; 4; 11 11 22; 11 5
C Register 0 1 0; Conflict;; 3; 11 11 22; 11 5
# Register and ignore existing key
A RegisterAndIgnoreExistingKey 0 9 0; Good; A_TWO:ReservationsReleased B:ReservationsReleased; 4; 11 22; 0 0
A_TWO RegisterAndIgnoreExistingKey 0 9 66; Good;; 4; 11 66 22; 11 5
A_ISID RegisterAndIgnoreExistingKey 0 9 55; Good;; 4; 11 11 55 22; 11 5
B RegisterAndIgnoreExistingKey 0 9 0; Good;; 4; 11 11; 11 5
C RegisterAndIgnoreExistingKey 0 9 0; Good;; 4; 11 11 22; 11 5
# Reserve
A Reserve 5 11 0; Good;; 3; 11 11 22; 11 5
A Reserve 6 11 0; Conflict;; 3; 11 11 22; 11 5
A Reserve 5 22 0; Conflict;; 3; 11 11 22; 11 5
A Reserve 2 11 0; Illegal 24 00;; 3; 11 11 22; 11 5
A_TWO Reserve 5 11 0; Conflict;; 3; 11 11 22; 11 5
A_ISID Reserve 5 11 0; Conflict;; 3; 11 11 22; 11 5
B Reserve 5 22 0; Conflict;; 3; 11 11 22; 11 5
C Reserve 5 0 0; Conflict;; 3; 11 11 22; 11 5
# Release
A Release 5 11 0; Good; A_TWO:ReservationsReleased B:ReservationsReleased; 3; 11 11 22; 0 0
A Release 6 11 0; Illegal 26 04;; 3; 11 11 22; 11 5
A Release 5 22 0; Conflict;; 3; 11 11 22; 11 5
A_TWO Release 5 11 0; Good;; 3; 11 11 22; 11 5
A_ISID Release 5 11 0; Conflict;; 3; 11 11 22; 11 5
B Release 6 22 0; Good;; 3; 11 11 22; 11 5
C Release 5 0 0; Conflict;; 3; 11 11 22; 11 5
# Clear
A Clear 0 11 0; Good; A_TWO:ReservationsPreempted B:ReservationsPreempted; 4;; 0 0
A_TWO Clear 0 11 0; Good; A:ReservationsPreempted B:ReservationsPreempted; 4;; 0 0
B Clear 0 22 0; Good; A:ReservationsPreempted A_TWO:ReservationsPreempted; 4;; 0 0
B Clear 0 11 0; Conflict;; 3; 11 11 22; 11 5
A_ISID Clear 0 11 0; Conflict;; 3; 11 11 22; 11 5
C Clear 0 0 0; Conflict;; 3; 11 11 22; 11 5
# Preempt, and preempt and abort
A Preempt 5 11 11; Good; A_TWO:RegistrationsPreempted; 4; 11 22; 11 5
A Preempt 1 11 22; Good; B:RegistrationsPreempted; 4; 11 11; 11 5
A_TWO Preempt 6 11 11; Good; A:RegistrationsPreempted B:ReservationsReleased; 4; 11 22; 11 6
B Preempt 7 22 11; Good; A:RegistrationsPreempted A_TWO:RegistrationsPreempted; 4; 22; 0 7
B Preempt 0 22 22; Good;; 4; 11 11; 11 5
B Preempt 6 22 33; Conflict;; 3; 11 11 22; 11 5
B Preempt 6 22 0; Illegal 26 00;; 3; 11 11 22; 11 5
B Preempt 2 22 11; Illegal 24 00;; 3; 11 11 22; 11 5
B Preempt 6 11 11; Conflict;; 3; 11 11 22; 11 5
A_ISID Preempt 6 11 11; Conflict;; 3; 11 11 22; 11 5
C Preempt 6 0 11; Conflict;; 3; 11 11 22; 11 5
A_TWO PreemptAndAbort 5 11 11; Good; A:RegistrationsPreempted; 4; 11 22; 11 5
B PreemptAndAbort 6 22 11; Good; A:RegistrationsPreempted A_TWO:RegistrationsPreempted; 4; 22; 22 6
C PreemptAndAbort 6 0 11; Conflict;; 3; 11 11 22; 11 5

# ALL_TG_PT is one registration for every port; the bit counts in the two actions that register, and the others ignore it. Without
# it: the holder is A through the other group, and B is registered. Then with it.
each kind of sender, for every port
A Register 0 0 11; Good;; 1; 11; 0 0
A_TWO Register 0 0 44; Good;; 2; 11 44; 0 0
B Register 0 0 22; Good;; 3; 11 44 22; 0 0
A_TWO Reserve 6 44 0; Good;; 3; 11 44 22; 44 6
each
A Register 0 11 0 ALL_TG_PT; Good; B:ReservationsReleased; 4; 22; 0 0
A Register 0 11 33 ALL_TG_PT; Good;; 4; 33 33 22; 33 6
A Register 0 44 33 ALL_TG_PT; Conflict;; 3; 11 44 22; 44 6
A Register 0 0 33 ALL_TG_PT; Conflict;; 3; 11 44 22; 44 6
A_TWO Register 0 44 0 ALL_TG_PT; Good; B:ReservationsReleased; 4; 22; 0 0
A_TWO RegisterAndIgnoreExistingKey 0 99 44 ALL_TG_PT; Good;; 4; 44 44 22; 44 6
B Register 0 22 0 ALL_TG_PT; Good;; 4; 11 44; 44 6
B Register 0 22 55 ALL_TG_PT; Good;; 4; 11 44 55 55; 44 6
B_TWO Register 0 0 55 ALL_TG_PT; Good;; 4; 11 44 55 55; 44 6
C Register 0 0 0 ALL_TG_PT; Good;; 4; 11 44 22; 44 6
C Register 0 0 33 ALL_TG_PT; Good;; 4; 11 44 22 33 33; 44 6
A_TWO Release 6 44 0 ALL_TG_PT; Good; A:ReservationsReleased B:ReservationsReleased; 3; 11 44 22; 0 0
B Clear 0 22 0 ALL_TG_PT; Good; A:ReservationsPreempted A_TWO:ReservationsPreempted; 4;; 0 0
"
}
