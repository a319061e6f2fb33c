//! Text and the negotiation of a login (RFC 7143, sections 6 and 13).
#![tactic(auto)]

mod answer;
mod key;
mod laws;
mod negotiation;
mod parameters;
mod refusal;
mod status;
mod targets;
mod text;
mod value;
mod within;

pub use key::{Key, KeyRule};
pub use laws::{
    a_text_and_its_pairs, booleans_that_are_negotiated, numbers_that_are_negotiated,
    what_every_negotiation_comes_to, what_is_announced_is_in_force, what_the_target_says_once,
};
pub use negotiation::{LONGEST_RESPONSE, LoginEnd, Negotiation};
pub use parameters::{Parameters, in_force};
pub use status::{LoginFlags, LoginStatus, SessionType};
pub use targets::{TextEnd, send_targets, target_text};
pub use value::{Limits, Rule, Value, Word};
pub use within::{TextAnswer, answer_within};
