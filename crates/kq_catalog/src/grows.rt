// The catalogue as a value that grows.
use crate::catalog::Catalog;
use kq_catalog_journal::Event;
use kq_lock::Grows;

/// Its history is the journal, and its limits never change.
impl Grows for Catalog {
    ghost use Rattle.kq_catalog.specs.Grown.{numbers_of};
    ghost use Rattle.kq_catalog.specs.Seen.{hist};

    type Entry = Event;

    ghost history = { hist };

    ghost fixed = { λ c. numbers_of c.limits };

    fn count(&self) -> u64 {
        self.place()
    }
}
