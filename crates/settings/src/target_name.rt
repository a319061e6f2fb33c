//! Which names a target may have (RFC 7143, 4.2.7; RFC 3722).

// Whether this character is clearly none that a name may have when stringprep is done (RFC 3722): a control character, a space, one that
// is not seen, an upper-case letter of Latin-1, Greek or Cyrillic, one of private use, or none at all.
fn is_barred(character: char) -> bool {
    matches!(
        character,
        '\u{80}'..='\u{A0}'
            | '\u{AD}'
            | '\u{C0}'..='\u{D6}'
            | '\u{D8}'..='\u{DE}'
            | '\u{391}'..='\u{3A9}'
            | '\u{400}'..='\u{42F}'
            | '\u{1680}'
            | '\u{180B}'..='\u{180E}'
            | '\u{2000}'..='\u{206F}'
            | '\u{3000}'
            | '\u{E000}'..='\u{F8FF}'
            | '\u{FE00}'..='\u{FE0F}'
            | '\u{FEFF}'
            | '\u{FFF0}'..='\u{FFFF}'
            | '\u{E0000}'..='\u{10FFFF}'
    )
}

// Whether a name may have this character: of ASCII these alone, and of all others those that are not clearly barred.
fn may_have(character: char) -> bool {
    matches!(character, 'a'..='z' | '0'..='9' | '-' | '.' | ':')
        || (character >= '\u{80}' && !is_barred(character))
}

// Whether this is a month, of two digits.
fn is_month(tens: u8, ones: u8) -> bool {
    matches!((tens, ones), (b'0', b'1'..=b'9') | (b'1', b'0'..=b'2'))
}

// Whether this is a year and a month.
fn is_date(text: &str) -> bool {
    match text.as_bytes() {
        [a, b, c, d, b'-', e, f] => {
            is_month(*e, *f) && [a, b, c, d].iter().all(|digit| digit.is_ascii_digit())
        }
        _ => false,
    }
}

// Whether this is the name of a domain: no part of it is empty.
fn is_domain(text: &str) -> bool {
    text.split('.').all(|part| !part.is_empty())
}

// Whether this is a month, and the domain that somebody owned then, and whatever its owner put behind a colon.
fn is_qualified(rest: &str) -> bool {
    let Some((date, name)) = rest.split_once('.') else {
        return false;
    };
    let domain = match name.split_once(':') {
        Some((domain, _)) => domain,
        None => name,
    };
    is_date(date) && is_domain(domain) && rest.chars().all(may_have)
}

// Whether these are digits of a number of so many.
fn are_digits(digits: &[u8], is_of_those: bool) -> bool {
    is_of_those && digits.iter().all(|digit| digit.is_ascii_hexdigit())
}

/// Whether a target may have this name: `iqn.` with the month since when somebody owns a domain, and that one; or a number as `eui.` or
/// `naa.` has it.
pub fn is_allowed(name: &str) -> bool {
    if let Some(rest) = name.strip_prefix("iqn.") {
        return is_qualified(rest);
    }
    if let Some(digits) = name.strip_prefix("eui.") {
        return are_digits(digits.as_bytes(), digits.len() == 16);
    }
    match name.strip_prefix("naa.") {
        Some(digits) => are_digits(digits.as_bytes(), digits.len() == 16 || digits.len() == 32),
        None => false,
    }
}
