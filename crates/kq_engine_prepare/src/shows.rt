// What is shown of the catalogue.
ghost use Rattle.std.specs.Prelude.{◌≡◌, IfOk, IfErr};
ghost use Rattle.kq_read_commands.specs.declared.command.Show.TheVariants as told;
ghost use Rattle.kq_reply.specs.declared.refusal.Refusal.TheVariants as refusals;
ghost use Rattle.kq_engine_query.specs.Answers.{RefusesBy};
ghost use Rattle.kq_engine_prepare.specs.Found.{TakesToShow};
ghost use Rattle.kq_engine_prepare.specs.Shows.{AnswersShow};

use kq_catalog::Snapshot;
use kq_engine_show::{extents_of, failures_of, journal_of, view_of};
use kq_read_commands::{Identifier, Show};
use kq_reply::{Refusal, Reply, render};
use kq_value::Memory;

// What is shown, from the snapshot alone.
pub(crate) fn show(snapshot: &Snapshot, show: &Show) -> Result<Reply, Refusal>
    ensures answer { IfOk result (AnswersShow snapshot.now.history show.now) }
    ensures refused { IfErr result (RefusesBy (AnswersShow snapshot.now.history show.now)) }
    ensures memory { IfErr result (λ r. r ≡ refusals.Memory → TakesToShow snapshot.now.history show.now) }
{
    match show {
        Show::View(view) => show_view(snapshot, view),
        Show::Failures => Ok(show_failures(snapshot)?),
        Show::Extents(table) => show_extents(snapshot, table),
        Show::Journal => Ok(show_journal(snapshot)?),
    }
}

fn show_view(snapshot: &Snapshot, view: &Identifier) -> Result<Reply, Refusal>
    ensures answer { IfOk result (AnswersShow snapshot.now.history (told.View view.now)) }
    ensures refused { IfErr result (RefusesBy (AnswersShow snapshot.now.history (told.View view.now))) }
    ensures memory { IfErr result (λ r. r ≡ refusals.Memory → TakesToShow snapshot.now.history (told.View view.now)) }
{
    let Some((number, _view)) = snapshot.view(&view.text) else {
        return Err(Refusal::Unknown { at: view.at as u64 });
    };
    let answer = view_of(snapshot, number)?;
    Ok(Reply::Rows {
        text: render(snapshot.allocator(), &answer)?,
    })
}

fn show_extents(snapshot: &Snapshot, table: &Identifier) -> Result<Reply, Refusal>
    ensures answer { IfOk result (AnswersShow snapshot.now.history (told.Extents table.now)) }
    ensures refused { IfErr result (RefusesBy (AnswersShow snapshot.now.history (told.Extents table.now))) }
    ensures memory { IfErr result (λ r. r ≡ refusals.Memory → TakesToShow snapshot.now.history (told.Extents table.now)) }
{
    let Some((number, _table)) = snapshot.table(&table.text) else {
        return Err(Refusal::Unknown {
            at: table.at as u64,
        });
    };
    let answer = extents_of(snapshot, number)?;
    Ok(Reply::Rows {
        text: render(snapshot.allocator(), &answer)?,
    })
}

fn show_failures(snapshot: &Snapshot) -> Result<Reply, Memory>
    ensures { IfOk result (AnswersShow snapshot.now.history told.Failures) }
{
    let answer = failures_of(snapshot)?;
    Ok(Reply::Rows {
        text: render(snapshot.allocator(), &answer)?,
    })
}

fn show_journal(snapshot: &Snapshot) -> Result<Reply, Memory>
    ensures { IfOk result (AnswersShow snapshot.now.history told.Journal) }
{
    let answer = journal_of(snapshot)?;
    Ok(Reply::Rows {
        text: render(snapshot.allocator(), &answer)?,
    })
}
