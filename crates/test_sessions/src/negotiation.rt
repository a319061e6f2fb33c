//! The keys of a login, and the text of a Text request.
mod keys;
mod send_targets;
