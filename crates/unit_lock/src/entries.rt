//! The entries that calls add to a history, each by what its call knows of it.
use crate::machine::Machine;
use logbook::Plain;
use std::marker::PhantomData;
use unit_sequence::Answer;

/// A command that was served, and the unit afterwards.
#[derive(Drop)]
pub(crate) struct Served<'a, X, G, A, R> {
    pub(crate) session: u64,
    pub(crate) serial: u64,
    pub(crate) by_group: &'a G,
    pub(crate) ask: &'a A,
    pub(crate) bytes: &'a [u8],
    pub(crate) reply: &'a R,
    pub(crate) object: &'a X,
}

/// The entry of a command that was served.
pub(crate) struct Serves<S, X>(PhantomData<(S, X)>);

impl<'a, E, S, X: Machine<E, S>> Plain<Served<'a, X, X::Group, X::Ask, X::Reply>, E, Answer>
    for Serves<S, X> {
    ghost use Rattle.std.specs.Prelude.{None};

    ghost ask = { λ d. X.serving d.session d.serial d.by_group.now d.ask.now d.bytes.now d.reply.now d.object.now };

    ghost state = { λ d. None };
}

/// The entry of the session that attached last.
pub(crate) struct Attaches<S, X>(PhantomData<(S, X)>);

impl<E, S, X: Machine<E, S>> Plain<X, E, Answer> for Attaches<S, X> {
    ghost use Rattle.std.specs.Prelude.{None};

    ghost ask = { λ x. X.joined x };

    ghost state = { λ x. None };
}

/// The entry of a reset by a session.
pub(crate) struct Resets<S, X>(PhantomData<(S, X)>);

impl<E, S, X: Machine<E, S>> Plain<u64, E, Answer> for Resets<S, X> {
    ghost use Rattle.std.specs.Prelude.{None};

    ghost ask = { λ session. X.resetting session };

    ghost state = { λ session. None };
}

/// The entry of a session that ends.
pub(crate) struct Detaches<S, X>(PhantomData<(S, X)>);

impl<E, S, X: Machine<E, S>> Plain<u64, E, Answer> for Detaches<S, X> {
    ghost use Rattle.std.specs.Prelude.{None};

    ghost ask = { λ session. X.detaching session };

    ghost state = { λ session. None };
}

/// The list of a move.
#[derive(Drop)]
pub(crate) struct Listed<'a> {
    pub(crate) list: &'a [u8],
}

/// The entry of a move.
pub(crate) struct Moves<S, X>(PhantomData<(S, X)>);

impl<'a, E, S, X: Machine<E, S>> Plain<Listed<'a>, E, Answer> for Moves<S, X> {
    ghost use Rattle.std.specs.Prelude.{None};

    ghost ask = { λ l. X.moving l.list.now };

    ghost state = { λ l. None };
}
