// The sessions before they are served.
use kq_value::Text;
use kq_world::{Clock, Parts, Sink, Source, World};
use std::marker::Model;

// A session that is to be served, with its objects. Session 0 has an empty name.
#[derive(Drop)]
pub(crate) struct OpenedSession<S: Source, K: Sink, C: Clock> {
    pub name: Text,
    // The number of rows of its script, where that is generated. Its own source isn't read then.
    pub generate: Option<u32>,
    pub parts: Parts<S, K, C>,
}

impl<S: Source, K: Sink, C: Clock> Model for OpenedSession<S, K, C> {
    ghost use Rattle.kq_session.specs.Objects.{objects};
    ghost use Rattle.kq_program.specs.Views.{OpenedView};

    ghost Value = { OpenedView };

    ghost view = { λ o. record { name = o.name; generate = o.generate; objects = objects S.told S.faults K.accepted K.faults C.readings o.parts } };
}

// A session that is to be served, with the objects that the World gave it.
pub(crate) type Opened<W> = OpenedSession<
    <W as World>::Source,
    <W as World>::Sink,
    <W as World>::Clock,
>;
