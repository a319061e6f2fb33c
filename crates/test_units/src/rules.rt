//! Tests of what stands below a unit: what CDBs ask for, and calls that may want memory.
mod ample;
mod scsi;
