// Values.
ghost use Rattle.std.specs.Prelude.{◌≡◌, ◌≢◌, ◌↔◌, IfOk, IsOk, IsTrue};
ghost use Rattle.kq_value.specs.declared.ty.Ty.TheVariants as types;
ghost use Rattle.kq_value.specs.declared.value.Value.TheVariants.{Dynamic};
ghost use Rattle.std.specs.declared.cmp.Ordering.TheVariants.{Equal};
ghost use Rattle.kq_value.specs.Values.{value_kind, value_cmp, is_same};
ghost use Rattle.kq_value.specs.Typed.{type_of, HasType, IsProper, IsMoment, is_null, missing_of};
ghost use Rattle.kq_value.specs.Hash.{content_hash, hash_of};

use crate::Memory;
use crate::dyn_box::DynBox;
use crate::dynamic::Dyn;
use crate::hash::{SEED, finish, step, step_bytes};
use crate::text::Text;
use crate::ty::Ty;
use std::alloc::Global;
use std::cmp::Ordering;

/// A cell. A datetime and a timespan are in ticks of 100 ns, a datetime from 0001-01-01. A null has the type of its column, but a missing string is
/// empty and a missing dynamic is the null of dynamics, so that no `Null` of a table has these two types.
#[derive(Drop)]
pub enum Value {
    Null(Ty),
    Long(i64),
    Int(i32),
    Text(Text),
    Bool(bool),
    Moment(i64),
    Span(i64),
    Dynamic(DynBox),
}

/// The last tick of the year 9999.
pub const LAST_MOMENT: i64 = 3_155_378_975_999_999_999;

/// Whether the ticks are those of a datetime.
pub fn is_moment(ticks: i64) -> bool
    ensures { IsTrue result ↔ IsMoment ticks }
{
    0 <= ticks && ticks <= LAST_MOMENT
}

impl Value {
    fn kind(&self) -> u8
        ensures { result ≡ value_kind self.now }
    {
        match self {
            Value::Null(ty) => ty.rank(),
            Value::Long(_) => 7,
            Value::Int(_) => 8,
            Value::Text(_) => 9,
            Value::Bool(_) => 10,
            Value::Moment(_) => 11,
            Value::Span(_) => 12,
            Value::Dynamic(_) => 13,
        }
    }

    /// The total order: `Null` first, in the order of the types, and then long, int, string, bool, datetime, timespan, dynamic, each in its own
    /// order. `Dyn::Null` is the first of the dynamics.
    pub fn cmp(&self, other: &Value) -> Ordering
        ensures { result ≡ value_cmp self.now other.now }
    {
        match (self, other) {
            (Value::Long(a), Value::Long(b)) => a.cmp(b),
            (Value::Int(a), Value::Int(b)) => a.cmp(b),
            (Value::Text(a), Value::Text(b)) => a.cmp(b),
            (Value::Bool(a), Value::Bool(b)) => a.cmp(b),
            (Value::Moment(a), Value::Moment(b)) => a.cmp(b),
            (Value::Span(a), Value::Span(b)) => a.cmp(b),
            (Value::Dynamic(a), Value::Dynamic(b)) => a.cmp(b),
            _ => self.kind().cmp(&other.kind()),
        }
    }

    /// Whether the order doesn't tell the two apart.
    pub fn same(&self, other: &Value) -> bool
        ensures same { IsTrue result ↔ (self.now ≡ other.now) }
        ensures test { result ≡ is_same self.now other.now }
        ensures order { IsTrue result ↔ (value_cmp self.now other.now ≡ Equal) }
    {
        self.cmp(other).is_eq()
    }

    /// FNV-1a over the kind and then the bytes of a text or the number as one word, under the finish of MurmurHash3: no two longs have one hash, and
    /// any bits of it serve for a table. It guards against no one who picks the values.
    pub fn hash64(&self) -> u64
        ensures { result ≡ hash_of self.now }
    {
        finish(self.hash_content(step(SEED, self.kind() as u64)))
    }

    fn hash_content(&self, state: u64) -> u64
        ensures { result ≡ content_hash state self.now }
    {
        match self {
            Value::Null(_) => state,
            Value::Long(n) | Value::Moment(n) | Value::Span(n) => step(state, n.cast_unsigned()),
            Value::Int(n) => step(state, i64::from(*n).cast_unsigned()),
            Value::Text(text) => step_bytes(state, text.as_str().as_bytes()),
            Value::Bool(b) => step(state, *b as u64),
            Value::Dynamic(d) => d.hash_into(state),
        }
    }

    pub fn clone_in(&self) -> Result<Value, Memory>
        ensures { IfOk result (λ v. v ≡ self.now) }
    {
        match self {
            Value::Null(ty) => Ok(Value::Null(*ty)),
            Value::Long(n) => Ok(Value::Long(*n)),
            Value::Int(n) => Ok(Value::Int(*n)),
            Value::Text(t) => Ok(Value::Text(t.clone_in()?)),
            Value::Bool(b) => Ok(Value::Bool(*b)),
            Value::Moment(n) => Ok(Value::Moment(*n)),
            Value::Span(n) => Ok(Value::Span(*n)),
            Value::Dynamic(d) => Ok(Value::Dynamic(d.clone_in()?)),
        }
    }

    /// The type, that of a null among them.
    pub fn ty(&self) -> Ty
        ensures { result ≡ type_of self.now }
    {
        match self {
            Value::Null(ty) => *ty,
            Value::Long(_) => Ty::Long,
            Value::Int(_) => Ty::Int,
            Value::Text(_) => Ty::Text,
            Value::Bool(_) => Ty::Bool,
            Value::Moment(_) => Ty::Moment,
            Value::Span(_) => Ty::Span,
            Value::Dynamic(_) => Ty::Dynamic,
        }
    }

    /// Whether it is a value of the type: a datetime in range, and no null of string or dynamic.
    pub fn has_type(&self, ty: Ty) -> bool
        ensures { IsTrue result ↔ HasType ty self.now }
    {
        self.ty().same(ty) && self.is_proper()
    }

    fn is_proper(&self) -> bool
        ensures { IsTrue result ↔ IsProper self.now }
    {
        match self {
            Value::Null(ty) => !ty.same(Ty::Text) && !ty.same(Ty::Dynamic),
            Value::Moment(ticks) => is_moment(*ticks),
            _ => true,
        }
    }

    /// Whether it is missing: a null, or the null of dynamics.
    pub fn is_null(&self) -> bool
        ensures { result ≡ is_null self.now }
    {
        match self {
            Value::Null(_) => true,
            Value::Dynamic(d) => d.is_null(),
            _ => false,
        }
    }

    pub fn dynamic(alloc: Global, dynamic: Dyn) -> Result<Value, Memory>
        ensures { IfOk result (λ v. v ≡ Dynamic dynamic) }
    {
        Ok(Value::Dynamic(DynBox::new(alloc, dynamic)?))
    }

    /// The cell that stands where a row has none: null, or empty for a string. Only a string and a dynamic take memory.
    pub fn missing(alloc: Global, ty: Ty) -> Result<Value, Memory>
        ensures missing { IfOk result (λ v. v ≡ missing_of ty) }
        ensures typed { IfOk result (λ v. HasType ty v) }
        ensures nulls { ty ≢ types.Text → ty ≢ types.Dynamic → IsOk result }
    {
        match ty {
            Ty::Text => Ok(Value::Text(Text::from_string(alloc, String::new(alloc))?)),
            Ty::Dynamic => Value::dynamic(alloc, Dyn::Null),
            _ => Ok(Value::Null(ty)),
        }
    }
}

impl Clone for Value {
    ghost is_clone = { λ v w. w ≡ v };

    fn clone(&self) -> Result<Value, Memory> {
        self.clone_in()
    }
}
