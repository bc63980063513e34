//! Values with many owners. A point is handed on by many nodes and kept once; what a name of a script stands
//! for is used many times and kept once.

ghost use Rattle.std.specs.Prelude.{◌≡◌, IfOk, IfSome, IsTrue, nat_eq};
ghost use Rattle.std.specs.Cmp.{partial_equiv_from_equiv};
ghost use Rattle.std.specs.Cmp.Lexicographic.{nat_list_eq_equiv, pointwise};
ghost use Rattle.kap_base.specs.Points.{are_dimensions};
ghost use Rattle.kap_base.specs.Tree.{tree_of};

use crate::duplicate::Duplicate;
use crate::expr::Expr;
use crate::memory::NoMemory;
use crate::point::Point;
use crate::point_dims::PointDims;
use crate::text::Text;
use std::alloc::Global;
use std::marker::Model;
use std::mem;
use std::sync::Arc;

/// A value that many owners share, which contracts see as the value. A copy is one owner more, and takes no
/// room.
#[derive(Debug, Drop)]
pub struct Shared<T> {
    value: Arc<T, Global>,
}

impl<T> Model for Shared<T> {
    ghost Value = { T };

    ghost view = { λ s. s.value.value };
}

impl<T: Drop> Shared<T> {
    /// The value, with one owner.
    pub fn new(alloc: Global, value: T) -> Result<Shared<T>, NoMemory>
        ensures { IfOk result (λ shared. shared ≡ value) }
    {
        Ok(Shared {
            value: Arc::new(alloc, value)?,
        })
    }

    /// The value.
    pub fn value(&self) -> &T
        ensures { result.now ≡ self.now }
    {
        &self.value
    }
}

impl<T: Drop> Shared<T> {
    /// Another value with one owner: in the place of this one, which is given back, where nobody else has it,
    /// and else in a new place.
    pub fn replace(self, alloc: Global, value: T) -> Result<(Shared<T>, Option<T>), NoMemory>
        ensures new { IfOk result (λ placed. placed.0 ≡ value) }
        ensures old { IfOk result (λ placed. IfSome placed.1 (λ old. old ≡ self)) }
    {
        let mut place = self.value;
        if let Some(held) = Arc::get_mut(&mut place) {
            let old = mem::replace(held, value);
            return Ok((Shared { value: place }, Some(old)));
        }
        Ok((Shared::new(alloc, value)?, None))
    }
}

impl<T: Duplicate + Drop> Shared<T> {
    /// The value for one owner: itself, where no other shares it, else a copy.
    pub fn into_value(self, alloc: Global) -> Result<T, NoMemory>
        ensures { IfOk result (λ value. value ≡ self) }
    {
        match Arc::try_unwrap(self.value) {
            Ok(value) => Ok(value),
            Err(shared) => (*shared).copy(alloc),
        }
    }
}

impl Shared<Point> {
    /// The point with these dimensions in the place of its own, grouped by its measurement too or not:
    /// itself, where no other owner shares it, else a copy.
    pub fn regrouped(
        self,
        alloc: Global,
        dims: PointDims,
        by_name: bool,
    ) -> Result<Shared<Point>, NoMemory>
        requires { IsTrue (are_dimensions dims) }
        ensures { IfOk result (λ point. point
            ≡ record self { dims = dims; by_name = by_name }) }
    {
        let mut value = self.value;
        if let Some(point) = Arc::get_mut(&mut value) {
            point.regroup(dims, by_name);
            return Ok(Shared { value });
        }
        let mut point = (*value).copy(alloc)?;
        point.regroup(dims, by_name);
        Shared::new(alloc, point)
    }
}

impl<T: PartialEq> PartialEq for Shared<T> {
    ghost eq = { λ x y. T.eq x y };

    ghost laws = { T.laws };

    fn eq(&self, other: &Shared<T>) -> bool {
        *self.value == *other.value
    }
}

impl<T: Eq> Eq for Shared<T> {
    ghost laws = { T.Eq.laws };
}

impl<T: Drop> Duplicate for Shared<T> {
    fn copy(&self, alloc: Global) -> Result<Shared<T>, NoMemory> {
        let _ = alloc;
        Ok(Shared {
            value: Arc::try_clone(&self.value)?,
        })
    }
}

/// A text that many owners share, which contracts see as its bytes. A copy is one owner more, and takes no
/// room.
#[derive(Debug, Drop)]
pub struct SharedText {
    text: Arc<Text, Global>,
}

impl Model for SharedText {
    ghost use Rattle.std.specs.Prelude.{List, ℕ};

    ghost Value = { List ℕ };

    ghost view = { λ s. s.text.value };
}

impl SharedText {
    /// The text, with one owner.
    pub fn new(alloc: Global, text: Text) -> Result<SharedText, NoMemory>
        ensures { IfOk result (λ shared. shared ≡ text) }
    {
        Ok(SharedText {
            text: Arc::new(alloc, text)?,
        })
    }

    /// The text.
    pub fn text(&self) -> &Text
        ensures { result.now ≡ self.now }
    {
        &self.text
    }

    /// Its bytes, as text.
    pub fn as_str(&self) -> &str
        ensures { result.now ≡ self.now }
    {
        self.text().as_str()
    }
}

impl PartialEq for SharedText {
    ghost eq = { λ x y. pointwise nat_eq x y };

    ghost laws = { partial_equiv_from_equiv nat_list_eq_equiv };

    fn eq(&self, other: &SharedText) -> bool {
        self.as_str() == other.as_str()
    }
}

impl Eq for SharedText {
    ghost laws = { nat_list_eq_equiv };
}

impl Duplicate for SharedText {
    fn copy(&self, alloc: Global) -> Result<SharedText, NoMemory> {
        let _ = alloc;
        Ok(SharedText {
            text: Arc::try_clone(&self.text)?,
        })
    }
}

/// An expression that many owners share, which contracts see as its tree. A copy is one owner more, and takes
/// no room.
#[derive(Drop)]
pub struct SharedExpr {
    expr: Arc<Expr, Global>,
}

impl Model for SharedExpr {
    ghost use Rattle.kap_base.specs.Tree.{Tree, tree_of};
    ghost use Rattle.kap_base.specs.TreeCode.{tree_code};

    ghost Value = { Tree };

    ghost coded = { tree_code };

    ghost view = { λ s. tree_of s.expr.value };
}

impl SharedExpr {
    /// The expression, with one owner.
    pub fn new(alloc: Global, expr: Expr) -> Result<SharedExpr, NoMemory>
        ensures { IfOk result (λ shared. shared ≡ tree_of expr) }
    {
        Ok(SharedExpr {
            expr: Arc::new(alloc, expr)?,
        })
    }

    /// The expression.
    pub fn expr(&self) -> &Expr
        ensures { tree_of result.now ≡ self.now }
    {
        &self.expr
    }
}

impl Duplicate for SharedExpr {
    fn copy(&self, alloc: Global) -> Result<SharedExpr, NoMemory> {
        let _ = alloc;
        Ok(SharedExpr {
            expr: Arc::try_clone(&self.expr)?,
        })
    }
}
