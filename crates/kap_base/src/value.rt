ghost use Rattle.std.specs.Prelude.{◌≡◌};
ghost use Rattle.std.specs.Bool.{Decides};
ghost use Rattle.kap_base.specs.Values.{is_same_value};

use crate::duplicate::Duplicate;
use crate::memory::NoMemory;
use crate::text::Text;
use std::alloc::Global;

/// What a field holds (InfluxDB 1.8 line protocol reference, data types; this project's integer profile has
/// no floats).
#[derive(Debug, PartialEq, Eq, Drop)]
pub enum Value {
    /// A signed integer of 64 bits.
    Int(i64),
    /// A truth value.
    Bool(bool),
    /// A text.
    Str(Text),
}

impl Value {
    /// Whether the two values are of one kind, and equal.
    pub fn is_same(&self, other: &Value) -> bool
        ensures { result ≡ is_same_value self.now other.now }
    {
        match self {
            Value::Int(a) => match other {
                Value::Int(b) => *a == *b,
                Value::Bool(_) => false,
                Value::Str(_) => false,
            },
            Value::Bool(a) => match other {
                Value::Bool(b) => *a == *b,
                Value::Int(_) => false,
                Value::Str(_) => false,
            },
            Value::Str(a) => match other {
                Value::Str(b) => a.is_same(b),
                Value::Int(_) => false,
                Value::Bool(_) => false,
            },
        }
    }
}

/// Values are the same exactly where they are of one kind and equal.
#[tactic(auto, using(crate::proofs::ValueLaws::values_decided))]
pub fn values_are_told_apart()
    ensures { (a b : Value) → Decides (is_same_value a b) (a ≡ b) }
{}

impl Duplicate for Value {
    fn copy(&self, alloc: Global) -> Result<Value, NoMemory> {
        match self {
            Value::Int(number) => Ok(Value::Int(*number)),
            Value::Bool(truth) => Ok(Value::Bool(*truth)),
            Value::Str(text) => Ok(Value::Str(text.copy(alloc)?)),
        }
    }
}
