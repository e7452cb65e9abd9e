// Exporters.
ghost use Rattle.std.specs.Prelude.{◌≡◌, ◌⊎◌};
ghost use mathlib.Core.List.{IsPrefix};
ghost use Rattle.kq_export_interface.specs.Due.{Answers, ExporterView, reply_of};

use kq_catalog::Snapshot;
use kq_read_commands::Export;
use kq_reply::{Refusal, Reply};

/// What exports, or refuses to. It is asked over snapshots, each of which goes on from the one before.
pub trait Exporter: Drop {
    /// Whether it serves, the exports that it holds, how often its artefacts have failed, and the history of the last
    /// snapshot that it was asked over.
    ghost told: { Self → ExporterView };

    /// Answers what is asked for, over a snapshot.
    fn export(&mut self, snapshot: &Snapshot, asked: &Export) -> Result<Reply, Refusal>
        requires { IsPrefix (told self.old).seen snapshot.now.history }
        ensures answers { Answers snapshot.now.history (told self.old) (told self.new) asked.now (reply_of result) }
        ensures seen { ((told self.new).seen ≡ (told self.old).seen) ⊎ ((told self.new).seen ≡ snapshot.now.history) };
}

/// The reply of an answer.
pub fn answered(answer: Result<Reply, Refusal>) -> Reply
    ensures { result ≡ reply_of answer }
{
    match answer {
        Ok(reply) => reply,
        Err(refusal) => Reply::Refused(refusal),
    }
}
