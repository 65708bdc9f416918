//! What each step on the table tells.
ghost use Rattle.shared_rows.specs.Plays.{Looks, Pins, Reads, Takes, Gives, Locks, Frees, Stores, Publishes, Numbers, kept_back, handed, joined, spent};

use crate::view::View;
use atomic_table::{Join, Play, Split};
use std::marker::{Brand, PhantomData};

pub(crate) struct Look;

impl Play<(), View> for Look {
    ghost then = { Looks };
}

pub(crate) struct Pin;

impl Play<(), View> for Pin {
    ghost then = { Pins };
}

pub(crate) struct Read;

impl Play<(), View> for Read {
    ghost then = { Reads };
}

pub(crate) struct Take;

impl Play<(), View> for Take {
    ghost then = { Takes };
}

pub(crate) struct Give;

impl Play<(), View> for Give {
    ghost then = { Gives };
}

pub(crate) struct Lock;

impl Play<(), View> for Lock {
    ghost then = { Locks };
}

pub(crate) struct Free;

impl Play<(), View> for Free {
    ghost then = { Frees };
}

pub(crate) struct Store;

impl Play<(), View> for Store {
    ghost then = { Stores };
}

/// Names an entry. Each call picks it.
pub trait Naming {
    ghost use Rattle.op_model.specs.declared.entry.Entry.{Entry};

    ghost entry: { Entry };
}

impl Naming for Brand {
    ghost use Rattle.shared_rows.specs.Plays.{no_entry};

    ghost entry = { no_entry };
}

pub(crate) struct Publish<N: Naming> {
    of: PhantomData<N>,
}

impl<N: Naming> Play<(), View> for Publish<N> {
    ghost then = { Publishes N.entry };
}

pub(crate) struct Number;

impl Play<(), View> for Number {
    ghost then = { Numbers };
}

pub(crate) struct Hand;

impl Split<View> for Hand {
    ghost left = { kept_back };

    ghost right = { handed };
}

pub(crate) struct Gather;

impl Join<View> for Gather {
    ghost both = { joined };

    ghost spent = { spent };
}
