//! The lines in which Prometheus reads what is measured.
ghost use Rattle.std.specs.Prelude.{◌≡◌, ◌++◌, ◌∷◌, [], codes, OnOk};
ghost use Rattle.std.specs.String.{string_bytes};
ghost use Rattle.array_view.specs.Text.{amount_onto, heading_onto, label_onto, labels_onto, sample_onto, word};

use events::escape_by;
use std::alloc::AllocError;

/// A label of a sample: its name, and its value.
#[derive(Clone, Copy)]
pub enum Label<'a> {
    Number(&'a str, u64),
    Hex(&'a str, u64),
    Word(&'a str, &'a str),
    /// What a host or a path is called.
    Name(&'a str, &'a [u8]),
}

/// The value of a sample.
#[derive(Clone, Copy)]
pub enum Amount {
    Count(u64),
    /// Microseconds, which are told as seconds.
    Micros(u64),
}

// A text that may come from outside.
fn put_word(text: &mut String, bytes: &[u8]) -> Result<(), AllocError>
    ensures { OnOk result (string_bytes text.new ≡ string_bytes text.old ++ word bytes.now) }
{
    escape_by(text, "\\\\x", bytes)
}

// A label whose value is a word.
fn put_pair(text: &mut String, name: &str, value: &[u8]) -> Result<(), AllocError>
    ensures { OnOk result (string_bytes text.new
        ≡ (((string_bytes text.old ++ word name.now) ++ codes "=\"") ++ word value.now) ++ codes "\",") }
{
    put_word(text, name.as_bytes())?;
    text.push_str("=\"")?;
    put_word(text, value)?;
    text.push_str("\",")
}

// A label.
fn put_label(text: &mut String, label: &Label<'_>) -> Result<(), AllocError>
    ensures { OnOk result (string_bytes text.new ≡ label_onto (string_bytes text.old) label.now) }
{
    match label {
        Label::Number(name, n) => {
            put_word(text, name.as_bytes())?;
            text.push_str("=\"")?;
            write!(text, "{n}")?;
            text.push_str("\",")
        }
        Label::Hex(name, n) => {
            put_word(text, name.as_bytes())?;
            text.push_str("=\"0x")?;
            write!(text, "{n:x}")?;
            text.push_str("\",")
        }
        Label::Word(name, value) => put_pair(text, name, value.as_bytes()),
        Label::Name(name, value) => put_pair(text, name, value),
    }
}

// Labels.
fn put_labels(text: &mut String, labels: &[Label<'_>]) -> Result<(), AllocError>
    ensures { OnOk result (string_bytes text.new ≡ labels_onto (string_bytes text.old) labels.now) }
{
    for label in labels {
        put_label(text, label)?;
    }
    Ok(())
}

// The value of a sample.
fn put_amount(text: &mut String, amount: Amount) -> Result<(), AllocError>
    ensures { OnOk result (string_bytes text.new ≡ amount_onto (string_bytes text.old) amount) }
{
    match amount {
        Amount::Count(n) => write!(text, "{n}"),
        Amount::Micros(n) => {
            write!(text, "{n}")?;
            text.push_str("e-6")
        }
    }
}

// What a metric is, or its type: the front of its line, its name, and words.
fn put_heading(text: &mut String, what: &str, name: &str, words: &str) -> Result<(), AllocError>
    ensures { OnOk result (string_bytes text.new ≡ heading_onto (string_bytes text.old) what.now name.now words.now ++ codes "\n") }
{
    text.push_str(what)?;
    put_word(text, name.as_bytes())?;
    text.push_str(" ")?;
    put_word(text, words.as_bytes())?;
    text.push_str("\n")
}

/// Puts a line behind a text: what the metric of this name tells.
pub fn put_help(text: &mut String, name: &str, words: &str) -> Result<(), AllocError>
    ensures { OnOk result (string_bytes text.new
        ≡ heading_onto (string_bytes text.old) (codes "# HELP ") name.now words.now ++ codes "\n") }
{
    put_heading(text, "# HELP ", name, words)
}

/// Puts a line behind a text: the type of the metric of this name.
pub fn put_type(text: &mut String, name: &str, kind: &str) -> Result<(), AllocError>
    ensures { OnOk result (string_bytes text.new
        ≡ heading_onto (string_bytes text.old) (codes "# TYPE ") name.now kind.now ++ codes "\n") }
{
    put_heading(text, "# TYPE ", name, kind)
}

/// Puts a line behind a text: a sample of the metric of this name.
pub fn put_sample(
    text: &mut String,
    name: &str,
    labels: &[Label<'_>],
    amount: Amount,
) -> Result<(), AllocError>
    ensures { OnOk result (string_bytes text.new ≡ sample_onto (string_bytes text.old) name.now labels.now amount ++ codes "\n") }
{
    put_word(text, name.as_bytes())?;
    text.push_str("{")?;
    put_labels(text, labels)?;
    text.push_str("} ")?;
    put_amount(text, amount)?;
    text.push_str("\n")
}
