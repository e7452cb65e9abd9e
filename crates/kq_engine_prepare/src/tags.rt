// The tags of an ingestion.
ghost use Rattle.std.specs.Prelude.{◌≡◌, IfOk, IfErr, MatchResult, map};
ghost use Rattle.std.specs.Arc.{arc_value};
ghost use Rattle.kq_catalog_journal.specs.History.{log};
ghost use Rattle.kq_catalog_journal.specs.Tagged.{ingested_by, least_tagged, lesser as lesser_of};
ghost use Rattle.kq_engine_prepare.specs.Found.{barred_at};
ghost use Rattle.kq_engine_prepare.specs.Labels.{AreLabels, IsBadTags, ReadsStrings};

use crate::found::Barring;
use kq_catalog::Snapshot;
use kq_read_commands::{Properties, Quoted};
use kq_reply::Refusal;
use kq_store_ingest::read_tags;
use kq_value::{Memory, Tags, Text};
use std::alloc::Global;

// The tags of an ingestion's extent, and those that bar it.
#[derive(Drop)]
pub(crate) struct Labels {
    pub tags: Tags,
    pub barring: Tags,
}

// The strings of a property's value, or the place of a value that isn't an array of strings.
#[derive(Drop)]
enum Strings {
    Read(Tags),
    Bad(usize),
}

// Reads the values of both properties. The leftmost that isn't a JSON array of strings is refused.
pub(crate) fn read_labels(alloc: Global, properties: &Properties) -> Result<Labels, Refusal>
    ensures { MatchResult result (AreLabels properties.now) (IsBadTags properties.now) }
{
    let tags = read_strings(alloc, &properties.tags)?;
    let others = read_strings(alloc, &properties.if_not_exists)?;
    match (tags, others) {
        (Strings::Read(tags), Strings::Read(others)) => Ok(Labels {
            tags,
            barring: barring_tags(alloc, others.as_slice())?,
        }),
        (Strings::Bad(at), Strings::Read(_)) | (Strings::Read(_), Strings::Bad(at)) => {
            Err(Refusal::BadTags { at: at as u64 })
        }
        (Strings::Bad(one), Strings::Bad(other)) => Err(Refusal::BadTags {
            at: one.min(other) as u64,
        }),
    }
}

fn read_strings(alloc: Global, value: &Option<Quoted>) -> Result<Strings, Memory>
    ensures { IfOk result (ReadsStrings value.now) }
{
    let Some(value) = value else {
        return Ok(Strings::Read(Tags::new(alloc)));
    };
    match read_tags(alloc, value.text.as_str())? {
        Some(tags) => Ok(Strings::Read(tags)),
        None => Ok(Strings::Bad(value.at)),
    }
}

// The tags that tell what an extent was ingested by.
fn barring_tags(alloc: Global, names: &[Text]) -> Result<Tags, Memory>
    ensures { IfOk result (λ tags. tags ≡ map ingested_by names.now) }
{
    let mut tags = Tags::new(alloc);
    for name in names {
        tags.push(barring_tag(alloc, name)?)?;
    }
    Ok(tags)
}

fn barring_tag(alloc: Global, name: &Text) -> Result<Text, Memory>
    ensures { IfOk result (λ tag. tag ≡ ingested_by name.now) }
{
    let mut tag = String::from_str(alloc, "ingest-by:")?;
    tag.push_str(name.as_str())?;
    Text::from_string(alloc, tag)
}

/// The least cursor of a commit that gave the table one of the tags, found without a walk over extents or events.
pub fn barring_cursor(snapshot: &Snapshot, unless: &Option<Barring>) -> Option<u64>
    ensures { result ≡ barred_at (log snapshot.now.history) unless.now }
{
    match unless {
        Some(barring) => least_cursor(snapshot, barring.table, barring.tags.as_slice()),
        None => None,
    }
}

pub(crate) fn least_cursor(snapshot: &Snapshot, table: u32, tags: &[Text]) -> Option<u64>
    ensures { result ≡ least_tagged (log snapshot.now.history) table tags.now }
{
    let mut least = None;
    for tag in tags {
        least = lesser(least, snapshot.tagged(table, tag));
    }
    least
}

fn lesser(one: Option<u64>, other: Option<u64>) -> Option<u64>
    ensures { result ≡ lesser_of one other }
{
    match (one, other) {
        (Some(one), Some(other)) => Some(one.min(other)),
        (Some(one), None) => Some(one),
        (None, other) => other,
    }
}
