//! The rule of a view: what is shown is true, and only grows.
ghost use Rattle.live_view.specs.Showing.{Keeps, Sees, unseen};

use crate::names::ViewName;
use crate::shown::{News, Shown};
use crate::sight::Sight;
use atomic_table::{Join, Split};
use crossbeam_utils::rule::{Outcome, Protocol};
use left_right::reader::Reader;
use left_right::writer::Writer;
use std::marker::PhantomData;

/// What holds of a view at each moment.
pub struct Grows<N: ViewName> {
    name: PhantomData<N>,
}

impl<N: ViewName> Protocol<Shown, Sight> for Grows<N> {
    ghost holds = { Keeps N.plan };

    ghost first = { unseen };
}

/// What a look or a telling tells its seat.
pub struct Seeing<N: ViewName> {
    name: PhantomData<N>,
}

impl<N: ViewName> Outcome<Shown, Sight> for Seeing<N> {
    ghost then = { Sees N.plan };
}

/// How a reader is told what the writer has seen: the writer goes on knowing it.
pub struct Telling;

impl Split<Sight> for Telling {
    ghost left = { λ v. v };

    ghost right = { λ v. v };
}

impl Join<Sight> for Telling {
    ghost both = { λ _ w. w };

    ghost spent = { unseen };
}

/// Reads what is shown.
pub type ViewReader<N> = Reader<Shown, Sight, Grows<N>>;

/// Changes what is shown.
pub type ViewWriter<N> = Writer<Shown, News, Sight, Grows<N>>;
