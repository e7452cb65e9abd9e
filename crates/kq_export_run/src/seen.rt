// The last snapshot, as contracts see it.
ghost use Rattle.std.specs.Prelude.{◌≡◌, []};
ghost use Rattle.kq_export_run.specs.Held.{history_of};

use kq_catalog::Snapshot as Taken;
use std::snapshot::Snapshot;

// The last snapshot over which an exporter was asked, of which the program keeps nothing.
#[derive(Drop)]
pub(crate) enum Seen {
    Start,
    At(Snapshot<Taken>),
}

impl Seen {
    pub(crate) fn start() -> Seen
        ensures { history_of result ≡ [] }
    {
        Seen::Start
    }

    pub(crate) fn at(snapshot: &Taken) -> Seen
        ensures { history_of result ≡ snapshot.now.history }
    {
        Seen::At(Snapshot::of(snapshot))
    }
}
