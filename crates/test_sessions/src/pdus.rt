//! Tests of the calls of `iscsi_coding`: PDUs whose bytes are worked out by hand from the figures of RFC 7143, section 11.
mod faults;
mod initiators;
mod limits;
mod rows;
mod target_pdus;
