//! What a code stands for.

// The value of an enumeration that a code stands for, by the table of its codes: `found_by!(code, Kind: 0 = First, 1 = Second)`.
macro_rules! found_by {
    ($code:ident, $kind:ident: $($number:literal = $value:ident),*) => {
        match $code {
            $($number => Some($kind::$value),)*
            _ => None,
        }
    };
}

pub(crate) use found_by;
