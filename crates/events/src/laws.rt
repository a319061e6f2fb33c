//! What is known of each line.
ghost use Rattle.std.specs.Prelude.{◌≡◌, true};
ghost use Rattle.events.specs.Text.{are_plain, text_of};

use crate::event::Event;

/// The line of an event has printing characters of ASCII alone, whatever an initiator or a path is called: none of them begins a line
/// of its own, or reaches a terminal.
#[tactic(auto, using(crate::proofs::PlainLaws::line))]
pub fn no_event_begins_a_line(event: &Event<'_>)
    ensures { are_plain (text_of event.now) ≡ true }
{}
