// What the program hands back.
use kq_export_run::ArtefactExporter;
use kq_session::{End, Receipts, Requests};
use kq_value::Text;
use kq_workers::Catalog;
use kq_world::{Clock, Sink, Source, World};
use std::marker::Model;

/// A session that has ended, with its objects. Session 0 has an empty name.
#[derive(Drop)]
pub struct EndedSession<S: Source, K: Sink, C: Clock> {
    pub name: Text,
    pub source: S,
    pub sink: K,
    pub clock: C,
    pub receipts: Receipts,
    pub requests: Requests,
    pub end: End,
    pub status: u8,
}

impl<S: Source, K: Sink, C: Clock> Model for EndedSession<S, K, C> {
    ghost use Rattle.kq_session.specs.Objects.{objects};
    ghost use Rattle.kq_program.specs.Views.{EndedView};

    ghost Value = { EndedView };

    ghost view = { λ e. record {
      name = e.name;
      session = record {
        objects = objects S.told S.faults K.accepted K.faults C.readings (record { source = e.source; sink = e.sink; clock = e.clock });
        receipts = e.receipts;
        refused = e.requests;
        end = e.end;
        status = e.status;
      };
    } };
}

/// A session that has ended, with the objects that the World gave it.
pub type Ended<W> = EndedSession<<W as World>::Source, <W as World>::Sink, <W as World>::Clock>;

/// What a run comes to: its status, and, where the sessions were begun, the catalogue, the sessions in order, and the exporter of
/// session 0.
#[derive(Drop)]
pub struct Run<W: World> {
    pub status: u8,
    pub catalog: Option<Catalog>,
    pub sessions: Vec<Ended<W>>,
    pub export: Option<ArtefactExporter<<W as World>::Artefacts>>,
}

impl<W: World> Model for Run<W> {
    ghost use Rattle.std.specs.Coded.{codes};
    ghost use Rattle.kq_value.specs.contracts.value.Value as cell;
    ghost use Rattle.kq_plan_expressions.specs.contracts.expr.Expr as expr;
    ghost use Rattle.kq_program.specs.Views.{RunView};

    ghost Value = { RunView };

    ghost coded = { Prim.hlevel (codes, cell.the_row.coded, expr.the_row.coded) };

    ghost view = { λ r. record { status = r.status; catalog = r.catalog; sessions = r.sessions.items; export = r.export } };
}
