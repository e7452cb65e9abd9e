// Bags that have the same keys, lent by their members.
ghost use Rattle.kq_store_column_view.specs.Bags.{AreBags};
ghost use Rattle.kq_store_column_view.specs.Props.{AreBags-prop};

use kq_value::{Dyn, Text};

/// One key, and its value in each bag.
#[derive(Drop)]
pub struct Part {
    pub key: Text,
    pub members: Vec<Dyn>,
}

/// So many bags of the same keys, lent by their members, key by key.
#[derive(Clone, Copy)]
pub struct LentBags<'a> {
    pub parts: &'a [Part],
    pub count: usize,
    pub ghost are: { AreBags parts.now count } by { AreBags-prop parts.now count },
}
