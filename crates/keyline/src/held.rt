//! A value that is taken out only while it is used by value.

ghost use Rattle.std.specs.Prelude.{◌≡◌, IsSome};

use std::marker::Model;

/// A value that is taken out only while it is used by value.
#[derive(Drop)]
pub(crate) struct Held<A> {
    pub(crate) value: Option<A>,
    ghost here: { IsSome value },
}

impl<A> Model for Held<A> {
    ghost use Rattle.keyline.specs.Helds.{value_in};

    ghost Value = { A };

    ghost view = { λ h. value_in h.value h.here };
}

impl<A> Held<A> {
    pub(crate) fn new(value: A) -> Self
        ensures { result ≡ value }
    {
        Held { value: Some(value) }
    }

    pub(crate) fn into_inner(self) -> A
        ensures { result ≡ self }
    {
        let Held { value } = self;
        match value {
            Some(value) => value,
            None => unreachable!(),
        }
    }
}
