// What a commit changes of a state beside its tables and its journal.
ghost use Rattle.std.specs.Prelude.{◌≡◌, ◌<◌, ◌^◌, ◌++◌, IfOk, IfSome, None, length};
ghost use Rattle.kq_catalog_indexes.specs.Places.{place_of};
ghost use Rattle.kq_catalog_journal.specs.Policies.{noted_by, policies_with};
ghost use Rattle.kq_catalog_journal.specs.Tagged.{is_tagged_by};
ghost use Rattle.kq_catalog_indexes.specs.Tags.{AddsTags};
ghost use Rattle.kq_catalog.specs.Policies.{SetsStanding};
ghost use Rattle.kq_catalog.specs.Views.{names_held, with_new};

use crate::held_view::HeldView;
use crate::noting::with_failures;
use crate::policies::Policies;
use crate::tagging::with_commit;
use crate::views::Views;
use kq_catalog_indexes::TagIndex;
use kq_catalog_journal::{Commit, Noted};
use kq_store_shared_lists::SharedList;
use kq_value::Memory;
use std::alloc::Global;

// Policies, views, the failures that commits noted, and the cursors of tags.
#[derive(Drop)]
pub(crate) struct Rest {
    pub policies: Policies,
    pub views: Views,
    pub failures: SharedList<Noted>,
    pub tags: TagIndex,
}

// These after a commit at a cursor, which may make a view.
pub(crate) fn rest_after(
    alloc: Global,
    policies: &Policies,
    views: &Views,
    failures: &SharedList<Noted>,
    tags: &TagIndex,
    commit: &Commit,
    view: Option<HeldView>,
    cursor: u64,
) -> Result<Rest, Memory>
    requires stands { SetsStanding (length policies.now) commit.now }
    requires few { length policies.now < 2 ^ 32 }
    requires new { IfSome view (λ v. place_of v.view.name (names_held views.now) ≡ None) }
    requires few_views { length views.now < 2 ^ 32 }
    ensures policies { IfOk result (λ r. r.policies ≡ policies_with commit.now policies.now) }
    ensures views { IfOk result (λ r. r.views ≡ with_new views.now view) }
    ensures failures { IfOk result (λ r. r.failures ≡ failures.now ++ noted_by cursor commit.now) }
    ensures tags { IfOk result (λ r. AddsTags tags.now (λ t tag. is_tagged_by t tag commit.now) cursor r.tags) }
{
    let views = views.with_new(alloc, view)?;
    let policies = policies.with_commit(alloc, commit)?;
    let failures = with_failures(alloc, failures, commit, cursor)?;
    let tags = with_commit(tags, commit, cursor)?;
    Ok(Rest {
        policies,
        views,
        failures,
        tags,
    })
}

// These as they are.
pub(crate) fn rest_shared(
    policies: &Policies,
    views: &Views,
    failures: &SharedList<Noted>,
    tags: &TagIndex,
) -> Result<Rest, Memory>
    ensures policies { IfOk result (λ r. r.policies ≡ policies.now) }
    ensures views { IfOk result (λ r. r.views ≡ views.now) }
    ensures failures { IfOk result (λ r. r.failures ≡ failures.now) }
    ensures tags { IfOk result (λ r. r.tags ≡ tags.now) }
{
    rest_with(policies, views.share()?, failures, tags)
}

// These with other views.
pub(crate) fn rest_with(
    policies: &Policies,
    views: Views,
    failures: &SharedList<Noted>,
    tags: &TagIndex,
) -> Result<Rest, Memory>
    ensures policies { IfOk result (λ r. r.policies ≡ policies.now) }
    ensures views { IfOk result (λ r. r.views ≡ views) }
    ensures failures { IfOk result (λ r. r.failures ≡ failures.now) }
    ensures tags { IfOk result (λ r. r.tags ≡ tags.now) }
{
    let policies = policies.share()?;
    let failures = failures.share()?;
    let tags = tags.share()?;
    Ok(Rest {
        policies,
        views,
        failures,
        tags,
    })
}
