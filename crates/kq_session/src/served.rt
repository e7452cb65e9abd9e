// What a session hands back.
use crate::end::End;
use crate::receipt::Receipts;
use crate::requests::Requests;
use kq_engine::Pass;
use kq_export_interface::Exporter;
use kq_world::{Clock, Parts, Sink, Source};
use std::marker::Model;

/// What a session hands back, with how it ended. Its status is 0 where the script was read to its end and no reply was for want of
/// memory; else 1 for want of memory, 3 for a fault of the source, 4 of the sink, and 6 where 2^32 bytes were taken
/// without an end.
#[derive(Drop)]
pub struct Served<S: Source, K: Sink, C: Clock, E: Exporter> {
    pub pass: Pass,
    pub parts: Parts<S, K, C>,
    pub exporter: E,
    pub receipts: Receipts,
    pub requests: Requests,
    pub end: End,
    pub status: u8,
}

impl<S: Source, K: Sink, C: Clock, E: Exporter> Model for Served<S, K, C, E> {
    ghost use Rattle.std.specs.Coded.{codes};
    ghost use Rattle.kq_value.specs.contracts.value.Value as cell;
    ghost use Rattle.kq_plan_expressions.specs.contracts.expr.Expr as expr;
    ghost use Rattle.kq_session.specs.Codes.{term_code};
    ghost use Rattle.kq_session.specs.Objects.{ServedView, objects};

    ghost Value = { ServedView };

    ghost coded = { Prim.hlevel (codes, cell.the_row.coded, expr.the_row.coded, term_code) };

    ghost view = { λ s. record { pass = s.pass; session = record { objects = objects S.told S.faults K.accepted K.faults C.readings s.parts; receipts = s.receipts; refused = s.requests; end = s.end; status = s.status }; exporter = E.told s.exporter } };
}
