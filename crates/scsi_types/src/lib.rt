//! SCSI commands, status, sense and names, as plain values.
#![tactic(auto)]

mod attention;
mod cdb;
mod command;
mod form;
mod found;
mod inquiries;
pub mod laws;
mod lun;
mod medium;
mod memory;
mod names;
mod pages;
mod persistent_reserve;
mod port_groups;
mod reply;
mod reservation;
mod sense;
mod status;
mod traits;

pub use attention::UnitAttention;
pub use cdb::decode;
pub use command::{Asked, CdbFault, Command, Op, is_group_list, need};
pub use form::CdbForm;
pub use lun::Lun;
pub use medium::MOST_BLOCKS;
pub use memory::NoMemory;
pub use names::{Group, LONGEST_NAME, Place, PortName};
pub use pages::{InquiryPage, LunSelect, ModeHeader, ModePage, PageControl};
pub use reply::Reply;
pub use reservation::{PrInAction, PrOutAction};
pub use sense::Sense;
pub use status::Status;
pub use traits::{Access, ServedIn, Traits};
