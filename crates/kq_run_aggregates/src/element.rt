// Values as members of a set.
use kq_value::Value;
use std::hash::{Hash, Hasher};
use std::marker::Model;

// A value by which a set finds it. Contracts see the value.
#[derive(Drop)]
pub(crate) struct Element {
    pub(crate) value: Value,
}

impl Model for Element {
    ghost use Rattle.kq_value.specs.declared.value.Value.{Value as Cell};
    ghost use Rattle.kq_value.specs.contracts.value.Value as cell;

    ghost Value = { Cell };

    ghost coded = { cell.the_row.coded };

    ghost view = { λ e. e.value };
}

impl PartialEq for Element {
    ghost use Rattle.kq_value.specs.Values.{is_same};
    ghost use Rattle.kq_run_aggregates.specs.SameLaws.{is_same_per};

    ghost eq = { is_same };

    ghost laws = { is_same_per };

    fn eq(&self, other: &Element) -> bool {
        self.value.same(&other.value)
    }
}

impl Eq for Element {
    ghost use Rattle.kq_run_aggregates.specs.SameLaws.{is_same_equiv};

    ghost laws = { is_same_equiv };
}

impl Hash for Element {
    ghost use Rattle.kq_run_aggregates.specs.SameLaws.{written, written_same};

    ghost hash_input = { written };

    ghost respects_eq = { written_same };

    fn hash<H: Hasher>(&self, state: &mut H) {
        state.write_u64(self.value.hash64());
    }
}
