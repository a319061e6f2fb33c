//! What is known at each seat of a board, and the rule that keeps it.
use atomic_table::{Join, Split};
use crossbeam_utils::atomic::seq_cell::{Pass, RuledSeqCell};
use crossbeam_utils::rule::{Outcome, Protocol};
use std::collections::LinkedList;
use std::marker::{Brand, PhantomData};
use unit_sequence::{ArrayNaming, At};

/// The words of a row.
pub type Words = [u64; 7];

/// What is known at a seat. No value of it is made.
pub struct View<E, S> {
    pub unborn: bool,
    pub publishes: bool,
    pub from: Option<S>,
    pub seen: LinkedList<E>,
    pub claims: bool,
    pub session: u64,
    pub count: u64,
    pub commands: u64,
}

/// What a board says of histories: which are legal, what row one has, and which entries are a session's own.
pub trait Published<E, S> {
    ghost use Rattle.std.specs.Prelude.{ℕ, List};
    ghost use Rattle.status.specs.declared.row.Row.{Row};

    // From this opening state this history is legal.
    ghost legal: { S → List E → Type 0 };

    // The row of the state that it leads to.
    ghost rows: { S → List E → Row };

    // 1 for an entry of this session's own, which nobody adds but by its right; else 0.
    ghost own: { ℕ → E → ℕ };

    // 1 for a command of this session; else 0.
    ghost command: { ℕ → E → ℕ };
}

/// Which table a board stands in, and the state that its history opened in.
pub trait Origin<S> {
    ghost use Rattle.atomic_table.specs.Seated.{TableId};

    ghost table: { TableId };

    ghost from: { S };
}

impl<S, N: ArrayNaming<S>, const U: usize> Origin<S> for At<S, N, U> {
    ghost table = { N.table U };

    ghost from = { N.opening U };
}

/// The rule of the board.
pub struct Law<P>(PhantomData<P>);

impl<E, S, P: Published<E, S>> Protocol<Words, View<E, S>> for Law<P> {
    ghost use Rattle.status.specs.Views.{IsBoard, first_view, worded};

    ghost holds = { IsBoard P.own P.command P.legal (worded P.rows) };

    ghost first = { first_view };
}

/// A reader looks.
pub struct Looks<P, J>(PhantomData<(P, J)>);

impl<E, S, P: Published<E, S>, J: Origin<S>> Outcome<Words, View<E, S>> for Looks<P, J> {
    ghost use Rattle.status.specs.Views.{Looked};

    ghost then = { Looked J.from P.legal P.rows };
}

/// The publisher looks what the right in its hand has counted.
pub struct Learns<P>(PhantomData<P>);

impl<E, S, P: Published<E, S>> Outcome<Words, View<E, S>> for Learns<P> {
    ghost use Rattle.status.specs.Views.{Learned};

    ghost then = { Learned P.own P.command };
}

/// What is known behind a step, which its caller picks.
pub trait Now<E, S> {
    ghost use Rattle.status.specs.declared.law.View.{View};

    ghost view: { View E S };
}

impl<E, S> Now<E, S> for Brand {
    ghost use Rattle.status.specs.Views.{nobody};

    ghost view = { nobody };
}

/// The publisher writes a row, and knows this then.
pub struct Becomes<K>(PhantomData<K>);

impl<E, S, K: Now<E, S>> Outcome<Words, View<E, S>> for Becomes<K> {
    ghost use Rattle.std.specs.Prelude.{◌≡◌};

    ghost then = { λ v x y w. w ≡ K.view };
}

/// A new reader.
pub struct Reads;

impl<E, S> Split<View<E, S>> for Reads {
    ghost use Rattle.status.specs.Views.{reading};

    ghost left = { λ v. v };

    ghost right = { λ v. reading v };
}

/// The publisher takes a session's right in hand, or gives it back.
pub struct Holds;

impl<E, S> Join<View<E, S>> for Holds {
    ghost use Rattle.status.specs.Views.{holding, nobody};

    ghost both = { holding };

    ghost spent = { nobody };
}

impl<E, S> Split<View<E, S>> for Holds {
    ghost use Rattle.status.specs.Views.{bare, right_of};

    ghost left = { bare };

    ghost right = { right_of };
}

/// The cell that the words stand in.
pub type Cell<E, S, P> = RuledSeqCell<Words, View<E, S>, Law<P>, 7>;

/// A seat at the cell, with what is known there.
pub type Token<E, S> = Pass<Words, View<E, S>>;
