//! A field that is compared with a number, without a walk over the expression.

ghost use Rattle.std.specs.Prelude.{◌≡◌, ℕ, Ok, IfSome};
ghost use Rattle.kap_base.specs.Tree.{tree_of};
ghost use Rattle.kap_base.specs.declared.value.Value.TheVariants.{Bool as Truth};
ghost use Rattle.lambda_eval.specs.Values.{val};

use kap_base::{Expr, Lit, Op, Point, Value};
use lambda_types::Lambda;

/// The value of an expression that compares a field with a number.
fn compare(expr: &Expr, point: &Point) -> Option<bool>
    ensures { IfSome result (λ truth. (k : ℕ)
        → val (tree_of expr.now) k point.now ≡ Ok (Truth truth)) }
{
    let Expr::Bin(op, left, right, _) = expr else {
        return None;
    };
    let Expr::Ref(name, _) = &**left else {
        return None;
    };
    let Expr::Lit(Lit::Int(number), _) = &**right else {
        return None;
    };
    let Some(Value::Int(field)) = point.fields.get(name) else {
        return None;
    };
    match op {
        Op::Eq => Some(*field == *number),
        Op::Ne => Some(*field != *number),
        Op::Lt => Some(*field < *number),
        Op::Le => Some(*field <= *number),
        Op::Gt => Some(*field > *number),
        Op::Ge => Some(*field >= *number),
        _ => None,
    }
}

/// The value of `"field" < 30` and the like at a point that has such a field, an integer. Of any other
/// lambda, None.
pub(crate) fn compare_field(lambda: &Lambda, point: &Point) -> Option<bool>
    ensures { IfSome result (λ truth. (k : ℕ) → val lambda.now k point.now ≡ Ok (Truth truth)) }
{
    compare(lambda.expr.expr(), point)
}
