//! What is known of each line.
ghost use Rattle.std.specs.Prelude.{◌≡◌, [], codes, true};
ghost use Rattle.events.specs.Text.{are_plain};
ghost use Rattle.array_view.specs.Text.{heading_onto, sample_onto};

use crate::line::{Amount, Label};

/// The line of a sample has printing characters of ASCII alone, whatever a host or a path is called: none of them begins a line of its
/// own.
#[tactic(auto, using(crate::proofs::Plain::sample))]
pub fn no_name_begins_a_line(name: &str, labels: &[Label<'_>], amount: Amount)
    ensures { are_plain (sample_onto [] name.now labels.now amount) ≡ true }
{}

/// So has the line that tells what a metric is, or its type.
pub fn no_words_begin_a_line(name: &str, words: &str)
    ensures help { are_plain (heading_onto [] (codes "# HELP ") name.now words.now) ≡ true }
    ensures kind { are_plain (heading_onto [] (codes "# TYPE ") name.now words.now) ≡ true }
{}
