// The exporter of a session that has none.
ghost use Rattle.std.specs.Prelude.{◌≡◌};
ghost use Rattle.kq_export_interface.specs.Due.{unsupported_at};

use crate::exporter::Exporter;
use kq_catalog::Snapshot;
use kq_export_binder::unsupported_in_query;
use kq_read_commands::Export;
use kq_reply::{Refusal, Reply};

/// It holds nothing and refuses all.
#[derive(Clone, Copy)]
pub struct NoExporter;

impl Exporter for NoExporter {
    ghost use Rattle.kq_export_interface.specs.Due.{none_told};

    ghost told = { λ _. none_told };

    fn export(&mut self, _snapshot: &Snapshot, asked: &Export) -> Result<Reply, Refusal> {
        Err(match unsupported(asked) {
            Some(at) => Refusal::Unsupported { at },
            None => Refusal::NoExporter,
        })
    }
}

/// The place of the leftmost literal or word of a type in the body of an export that isn't supported. Takes no memory.
pub fn unsupported(asked: &Export) -> Option<u64>
    ensures { result ≡ unsupported_at asked.now }
{
    match asked {
        Export::Define(export) => {
            let at = unsupported_in_query(export.body.text.as_str(), &export.body.tree)?;
            Some(at as u64)
        }
        Export::Run(_) => None,
    }
}
