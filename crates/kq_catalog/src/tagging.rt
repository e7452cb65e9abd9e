// The index of tags after a commit.
ghost use Rattle.std.specs.Prelude.{◌&&◌, IfOk, nat_eq};
ghost use Rattle.std.specs.List.{list_any};
ghost use Rattle.kq_catalog_journal.specs.kq_value_text_sets.Names.{is_among};
ghost use Rattle.kq_catalog_journal.specs.Tagged.{gives_tag, is_tagged_by};
ghost use Rattle.kq_catalog_indexes.specs.Tags.{AddsTags};

use kq_catalog_indexes::TagIndex;
use kq_catalog_journal::{Batch, Commit};
use kq_value::{Memory, Text};

// The index in which the tags that a commit gives tables have its cursor, unless they had one.
pub(crate) fn with_commit(
    index: &TagIndex,
    commit: &Commit,
    cursor: u64,
) -> Result<TagIndex, Memory>
    ensures { IfOk result (AddsTags index.now (λ t tag. is_tagged_by t tag commit.now) cursor) }
{
    match commit {
        Commit::CreateTable { .. }
        | Commit::SetPolicy { .. }
        | Commit::CreateView(_)
        | Commit::AlterMerge { .. } => Ok(index.share()?),
        Commit::Ingest { batches, .. } => with_batches(index, batches.as_slice(), cursor),
    }
}

fn with_batches(index: &TagIndex, batches: &[Batch], cursor: u64) -> Result<TagIndex, Memory>
    ensures { IfOk result (AddsTags index.now (λ t tag. list_any (gives_tag t tag) batches.now) cursor) }
{
    let mut all = index.share()?;
    for batch in batches {
        all = with_tags(&all, batch.table, batch.tags.as_slice(), cursor)?;
    }
    Ok(all)
}

fn with_tags(index: &TagIndex, table: u32, tags: &[Text], cursor: u64) -> Result<TagIndex, Memory>
    ensures { IfOk result (AddsTags index.now (λ t tag. nat_eq table t && is_among tag tags.now) cursor) }
{
    let mut all = index.share()?;
    for tag in tags {
        all = all.with(table, tag, cursor)?;
    }
    Ok(all)
}
