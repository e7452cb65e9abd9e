// Sets of values.
ghost use Rattle.std.specs.Prelude.{◌≡◌, ◌<◌, ◌^◌, List, [], ◌∷◌, ◌++◌, length, take, OnOk, OnErr, IfOk};
ghost use Rattle.indexmap.specs.IndexSet.{insert_key};
ghost use Rattle.kq_value_conversions.specs.Converted.{in_range};
ghost use Rattle.kq_value.specs.Seen.{tree_of};
ghost use Rattle.kq_value.specs.Tree.{tree_depth};
ghost use Rattle.kq_value.specs.Values.{is_same};
ghost use Rattle.kq_value_conversions.specs.kq_value_formats.Conversions.{item_of};
ghost use Rattle.kq_run_aggregates.specs.Holds.{is_element, set_of, tree_in};
ghost use Rattle.kq_run_aggregates.specs.Steps.{Unites, with_element, with_value};

use crate::element::Element;
use indexmap::IndexSet;
use kq_value::{Dyn, DynList, Memory, Value};
use kq_value_conversions::as_dynamic;
use std::alloc::Global;
use std::marker::Model;

// Different values in the order in which they came. Contracts see their list.
#[derive(Drop)]
pub(crate) struct Set {
    values: IndexSet<Element>,
}

impl Model for Set {
    ghost use Rattle.std.specs.Prelude.{List};
    ghost use Rattle.std.specs.Coded.{coded_list};
    ghost use Rattle.kq_value.specs.declared.value.Value.{Value as Cell};
    ghost use Rattle.kq_value.specs.contracts.value.Value as cell;

    ghost Value = { List Cell };

    ghost coded = { coded_list cell.the_row.coded };

    ghost view = { λ s. s.values.keys };
}

impl Set {
    pub(crate) fn new(alloc: Global) -> Set
        ensures { result ≡ [] }
    {
        Set {
            values: IndexSet::new(alloc),
        }
    }

    pub(crate) fn len(&self) -> usize
        ensures { result ≡ length self.now }
    {
        self.values.len()
    }

    pub(crate) fn as_slice(&self) -> &[Element]
        ensures { result.now ≡ self.now }
    {
        self.values.as_slice()
    }

    // Puts the value last, if there is room and it is one that isn't there.
    pub(crate) fn step(&mut self, most: u64, value: &Value) -> Result<(), Memory>
        ensures ok { OnOk result (self.new ≡ with_element most self.old value.now) }
        ensures err { OnErr result (self.new ≡ self.old) }
    {
        if is_element(value) {
            self.add(most, value)?;
        }
        Ok(())
    }

    fn add(&mut self, most: u64, value: &Value) -> Result<(), Memory>
        ensures ok { OnOk result (self.new ≡ with_value most self.old value.now) }
        ensures err { OnErr result (self.new ≡ self.old) }
    {
        if (self.len() as u64) < most {
            self.insert(value)?;
        }
        Ok(())
    }

    // Puts the other's values last, as far as there is room.
    pub(crate) fn merge(&mut self, most: u64, other: &Set) -> Result<(), Memory>
        ensures ok { OnOk result (Unites most self.old other.now self.new) }
        ensures err { OnErr result (self.new ≡ self.old) }
    {
        let before = self.len();
        let done = self.add_all(most, other);
        if done.is_err() {
            self.values.truncate(before);
        }
        done
    }

    // The same, but that some may be there after a refusal.
    fn add_all(&mut self, most: u64, other: &Set) -> Result<(), Memory>
        ensures front { take (length self.old) self.new ≡ self.old }
        ensures ok { OnOk result (Unites most self.old other.now self.new) }
    {
        for element in other.as_slice() {
            self.add(most, &element.value)?;
        }
        Ok(())
    }

    // The array of the values.
    pub(crate) fn finish(&self, alloc: Global) -> Result<Value, Memory>
        ensures { IfOk result (λ v. v ≡ set_of self.now) }
    {
        let mut items = DynList::new(alloc);
        for element in self.as_slice() {
            items.push(item_in(alloc, &element.value)?)?;
        }
        Value::dynamic(alloc, Dyn::List(items))
    }

    fn insert(&mut self, value: &Value) -> Result<(), Memory>
        ensures ok { OnOk result (self.new ≡ insert_key is_same self.old value.now) }
        ensures err { OnErr result (self.new ≡ self.old) }
    {
        let value = value.clone_in()?;
        self.values.insert(Element { value })?;
        Ok(())
    }
}

// A value as an item of the array.
fn item_in(alloc: Global, value: &Value) -> Result<Dyn, Memory>
    ensures tree { IfOk result (λ d. tree_of d ≡ tree_in value.now) }
    ensures shallow { IfOk result (λ d. tree_depth (tree_of d) < 127) }
{
    let item = item(alloc, value)?;
    if item.depth() < 127 {
        return Ok(item);
    }
    Ok(Dyn::Null)
}

fn item(alloc: Global, value: &Value) -> Result<Dyn, Memory>
    ensures { IfOk result (λ d. tree_of d ≡ item_of (in_range value.now)) }
{
    if let Value::Text(text) = value {
        return Ok(Dyn::Text(text.clone_in()?));
    }
    match as_dynamic(alloc, value)? {
        Value::Dynamic(dynamic) => dynamic.as_dyn().clone_in(),
        _ => Ok(Dyn::Null),
    }
}

// Whether it counts in a set: no null, nor a dynamic that nests as deep as none within an array may.
fn is_element(value: &Value) -> bool
    ensures { result ≡ is_element value.now }
{
    match value {
        Value::Dynamic(dynamic) => !dynamic.is_null() && dynamic.as_dyn().depth() < 127,
        _ => !value.is_null(),
    }
}
