//! Requests over several steps, and who may read and write beside a reservation of each type (SPC-4, 5.13.1).

/// Rows as `run.rt` says.
pub fn rows() -> &'static str {
    "
the holder is preempted
A Register 0 0 11; Good;; 1; 11; 0 0
B Register 0 0 22; Good;; 2; 11 22; 0 0
C Register 0 0 11; Good;; 3; 11 22 11; 0 0
D Register 0 0 33; Good;; 4; 11 22 11 33; 0 0
A Reserve 5 11 0; Good;; 4; 11 22 11 33; 11 5
B Preempt 6 22 11; Good; A:RegistrationsPreempted C:RegistrationsPreempted D:ReservationsReleased; 5; 22 33; 22 6

all registrants hold the reservation until the last of them unregisters
A Register 0 0 11; Good;; 1; 11; 0 0
B Register 0 0 22; Good;; 2; 11 22; 0 0
A Reserve 7 11 0; Good;; 2; 11 22; 0 7
B Reserve 7 22 0; Good;; 2; 11 22; 0 7
B Reserve 8 22 0; Conflict;; 2; 11 22; 0 7
A Register 0 11 0; Good;; 3; 22; 0 7
B Register 0 22 0; Good;; 4;; 0 0
A Register 0 0 11; Good;; 5; 11; 0 0
A Reserve 8 11 0; Good;; 5; 11; 0 8
A Preempt 0 11 11; Good;; 6;; 0 0

all registrants are preempted
A Register 0 0 11; Good;; 1; 11; 0 0
B Register 0 0 22; Good;; 2; 11 22; 0 0
C Register 0 0 33; Good;; 3; 11 22 33; 0 0
A Reserve 8 11 0; Good;; 3; 11 22 33; 0 8
B Preempt 8 22 33; Good; C:RegistrationsPreempted; 4; 11 22; 0 8
B Preempt 9 22 0; Illegal 24 00;; 4; 11 22; 0 8
B Preempt 3 22 0; Good; A:RegistrationsPreempted; 5; 22; 22 3
B Release 3 22 0; Good;; 5; 22; 0 0
A Register 0 0 11; Good;; 6; 11 22; 0 0
A Reserve 7 11 0; Good;; 6; 11 22; 0 7
B Release 7 22 0; Good; A:ReservationsReleased; 6; 11 22; 0 0

# With ALL_TG_PT a REGISTER registers both nexuses of its initiator port, one through each controller. Other actions ignore the bit.
a host that is registered through both controllers writes through either, until it is preempted
A Register 0 0 11 ALL_TG_PT; Good;; 1; 11 11; 0 0
A Reserve 5 11 0 ALL_TG_PT; Good;; 1; 11 11; 11 5
A_TWO Release 5 11 0 ALL_TG_PT; Good;; 1; 11 11; 11 5
allows A rwo, A_TWO rwo
B Register 0 0 22; Good;; 2; 11 11 22; 11 5
B Preempt 5 22 11 ALL_TG_PT; Good; A:RegistrationsPreempted A_TWO:RegistrationsPreempted; 3; 22; 22 5
allows A r-o, A_TWO r-o

all registrants hold the reservation until both nexuses of the last one are unregistered
A Register 0 0 11 ALL_TG_PT; Good;; 1; 11 11; 0 0
A Reserve 7 11 0 ALL_TG_PT; Good;; 1; 11 11; 0 7
B Register 0 0 22 ALL_TG_PT; Good;; 2; 11 11 22 22; 0 7
A_TWO Register 0 11 0 ALL_TG_PT; Good;; 3; 22 22; 0 7
B Register 0 22 0 ALL_TG_PT; Good;; 4;; 0 0

what each type allows: to the holder, to a registrant, to others
A Register 0 0 11; Good;; 1; 11; 0 0
B Register 0 0 22; Good;; 2; 11 22; 0 0
A Reserve 1 11 0; Good;; 2; 11 22; 11 1
allows A rwo, B r-o, C r-o
A Release 1 11 0; Good;; 2; 11 22; 0 0
A Reserve 3 11 0; Good;; 2; 11 22; 11 3
allows A rwo, B --o, C --o
A Release 3 11 0; Good;; 2; 11 22; 0 0
A Reserve 5 11 0; Good;; 2; 11 22; 11 5
allows A rwo, B rwo, C r-o
A Release 5 11 0; Good; B:ReservationsReleased; 2; 11 22; 0 0
A Reserve 6 11 0; Good;; 2; 11 22; 11 6
allows A rwo, B rwo, C --o
A Release 6 11 0; Good; B:ReservationsReleased; 2; 11 22; 0 0
A Reserve 7 11 0; Good;; 2; 11 22; 0 7
allows A rwo, B rwo, C r-o
A Release 7 11 0; Good; B:ReservationsReleased; 2; 11 22; 0 0
A Reserve 8 11 0; Good;; 2; 11 22; 0 8
allows A rwo, B rwo, C --o

no reservation
allows C rwo
"
}
