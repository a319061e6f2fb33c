//! The pieces of a line.
ghost use Rattle.std.specs.Prelude.{◌≡◌, ◌++◌, ◌∷◌, [], ◌<◌, ◌/◌, ◌%◌, codes, map, OnOk};
ghost use Rattle.std.specs.String.{string_bytes};
ghost use Rattle.std.specs.List.{flat_map};
ghost use Rattle.events.specs.Text.{escaped, escaped_by, hex_digit, joined, piece_text, quoted};

use std::alloc::AllocError;
use std::net::SocketAddrV4;

/// A piece of a line.
#[derive(Clone, Copy)]
pub(crate) enum Piece<'a> {
    Text(&'a str),
    Number(u64),
    Hex(u64),
    Address(SocketAddrV4),
    /// A name that an initiator or a path chose: it is quoted and escaped.
    Name(&'a [u8]),
}

// A digit of a byte that is escaped.
fn hex_digit_of(d: u8) -> char
    requires { d < 16 }
    ensures { result ≡ hex_digit d }
{
    char::from(if d < 10 { b'0' + d } else { b'a' - 10 + d })
}

// Puts a byte that is no printing character behind what a line has: this front, and two digits.
fn hide(line: &mut String, front: &str, b: u8) -> Result<(), AllocError>
    ensures { OnOk result (string_bytes line.new ≡ ((string_bytes line.old ++ front.now) ++ hex_digit (b / 16 % 16) ∷ [])
        ++ hex_digit (b % 16) ∷ []) }
{
    line.push_str(front)?;
    line.push(hex_digit_of(b / 16 % 16))?;
    line.push(hex_digit_of(b % 16))
}

// A byte of a name.
fn byte(line: &mut String, front: &str, b: u8) -> Result<(), AllocError>
    ensures { OnOk result (string_bytes line.new ≡ string_bytes line.old ++ escaped_by front.now b) }
{
    match b {
        b'"' => line.push_str("\\\""),
        b'\\' => line.push_str("\\\\"),
        32..127 => line.push(char::from(b)),
        _ => hide(line, front, b),
    }
}

/// Puts a name behind what a line has, escaped as it stands between quotes; a byte that is no printing character by this front and two
/// digits.
pub fn escape_by(line: &mut String, front: &str, name: &[u8]) -> Result<(), AllocError>
    ensures { OnOk result (string_bytes line.new ≡ string_bytes line.old ++ flat_map (escaped_by front.now) name.now) }
{
    for b in name {
        byte(line, front, *b)?;
    }
    Ok(())
}

/// Puts a name behind what a line has, escaped as it stands between quotes.
pub fn escape(line: &mut String, name: &[u8]) -> Result<(), AllocError>
    ensures { OnOk result (string_bytes line.new ≡ string_bytes line.old ++ flat_map escaped name.now) }
{
    escape_by(line, "\\x", name)
}

// A name between quotes.
fn name(line: &mut String, name: &[u8]) -> Result<(), AllocError>
    ensures { OnOk result (string_bytes line.new ≡ string_bytes line.old ++ quoted name.now) }
{
    line.push('"')?;
    escape(line, name)?;
    line.push('"')
}

fn put_one(line: &mut String, piece: &Piece<'_>) -> Result<(), AllocError>
    ensures { OnOk result (string_bytes line.new ≡ string_bytes line.old ++ piece_text piece.now) }
{
    match piece {
        Piece::Text(text) => line.push_str(text),
        Piece::Number(n) => write!(line, "{n}"),
        Piece::Hex(n) => write!(line, "{n:x}"),
        Piece::Address(a) => write!(line, "{a}"),
        Piece::Name(chosen) => name(line, chosen),
    }
}

/// Puts pieces behind what a line has.
pub(crate) fn put(line: &mut String, pieces: &[Piece<'_>]) -> Result<(), AllocError>
    ensures { OnOk result (string_bytes line.new ≡ joined (string_bytes line.old) (map piece_text pieces.now)) }
{
    for piece in pieces {
        put_one(line, piece)?;
    }
    Ok(())
}
