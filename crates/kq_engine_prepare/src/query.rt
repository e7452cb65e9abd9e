// Queries, as commands.
ghost use Rattle.std.specs.Prelude.{◌≡◌, IfErr, IfOk};
ghost use Rattle.kq_read_commands.specs.declared.command.Command.TheVariants as commands;
ghost use Rattle.kq_reply.specs.declared.reply.Reply.TheVariants as replies;
ghost use Rattle.kq_value.specs.Typed.{IsMoment};
ghost use Rattle.kq_engine_prepare.specs.Fits.{AnswersCommand, IsDue};

use kq_catalog::Snapshot;
use kq_engine_query::{Gatherer, answer as answer_text};
use kq_read_commands::Query;
use kq_reply::{Refusal, Reply};

// The answer to a query at a moment, from the snapshot alone.
pub(crate) fn answer<G: Gatherer>(
    snapshot: &Snapshot,
    query: &Query,
    gatherer: &G,
    now: i64,
) -> Result<Reply, Refusal>
    requires ready { G.ready gatherer.now }
    requires moment { IsMoment now }
    ensures answer { IfOk result (IsDue snapshot.now.limits snapshot.now.history now (commands.Query query.now)) }
    ensures refused { IfErr result (λ r. AnswersCommand snapshot.now.limits snapshot.now.history now (commands.Query query.now) (replies.Refused r)) }
{
    answer_text(snapshot, query.text.as_str(), &query.tree, gatherer, now)
}
