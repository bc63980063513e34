//! The sorts of what can be given.

ghost use Rattle.std.specs.Prelude.{◌≡◌, IfOk, Option};
ghost use Rattle.tick_compile.specs.Sorts.{as_count, as_default, as_duration, as_fill, as_line, as_measurement, as_name, as_node, as_period, as_span, as_text, as_unit, fill_named};
ghost use Rattle.tick_compile.specs.declared.given.Given.{Given};

use crate::given::Given;
use crate::names::is_named;
use kap_base::{Duplicate, Lit, NoMemory, SharedText, Text};
use std::alloc::Global;
use task_graph::{Count, DefaultValue, ElapsedUnit, Fill, Line, Measurement, Name, Period, Span};

/// A type of what can be given.
pub(crate) trait Sort<L>: Sized + Drop {
    ghost use Rattle.std.specs.Prelude.{Option};
    ghost use Rattle.tick_compile.specs.declared.given.Given.{Given};

    /// What is given, where it is of this sort.
    ghost sort: { Given L → Option Self };

    /// What is given, where it is of this sort.
    fn of_given(alloc: Global, given: Given<L>) -> Result<Option<Self>, NoMemory>
        ensures { IfOk result (λ found. found ≡ sort given) };
}

impl<L: Drop> Sort<L> for Text {
    ghost sort = { as_text };

    fn of_given(alloc: Global, given: Given<L>) -> Result<Option<Text>, NoMemory>
        ensures { IfOk result (λ found. found ≡ as_text given) }
    {
        match given {
            Given::Lit(Lit::Str(text)) => Ok(Some(text.text().copy(alloc)?)),
            _ => Ok(None),
        }
    }
}

impl<L: Drop> Sort<L> for SharedText {
    ghost sort = { as_text };

    fn of_given(alloc: Global, given: Given<L>) -> Result<Option<SharedText>, NoMemory>
        ensures { IfOk result (λ found. found ≡ as_text given) }
    {
        let _ = alloc;
        match given {
            Given::Lit(Lit::Str(text)) => Ok(Some(text)),
            _ => Ok(None),
        }
    }
}

impl<L: Drop> Sort<L> for Name {
    ghost sort = { as_name };

    fn of_given(alloc: Global, given: Given<L>) -> Result<Option<Name>, NoMemory>
        ensures { IfOk result (λ found. found ≡ as_name given) }
    {
        let _ = alloc;
        match given {
            Given::Lit(Lit::Str(text)) => Ok(Name::from_text(text)),
            _ => Ok(None),
        }
    }
}

impl<L: Drop> Sort<L> for Measurement {
    ghost sort = { as_measurement };

    fn of_given(alloc: Global, given: Given<L>) -> Result<Option<Measurement>, NoMemory>
        ensures { IfOk result (λ found. found ≡ as_measurement given) }
    {
        let _ = alloc;
        match given {
            Given::Lit(Lit::Str(text)) => Ok(Measurement::from_text(text)),
            _ => Ok(None),
        }
    }
}

impl<L: Drop> Sort<L> for Line {
    ghost sort = { as_line };

    fn of_given(alloc: Global, given: Given<L>) -> Result<Option<Line>, NoMemory>
        ensures { IfOk result (λ found. found ≡ as_line given) }
    {
        let _ = alloc;
        match given {
            Given::Lit(Lit::Str(text)) => Ok(Line::from_text(text)),
            _ => Ok(None),
        }
    }
}

impl<L: Drop> Sort<L> for Count {
    ghost sort = { as_count };

    fn of_given(alloc: Global, given: Given<L>) -> Result<Option<Count>, NoMemory>
        ensures { IfOk result (λ found. found ≡ as_count given) }
    {
        let _ = alloc;
        match given {
            Given::Lit(Lit::Int(number)) => Ok(Count::from_number(number)),
            _ => Ok(None),
        }
    }
}

impl<L: Drop> Sort<L> for i64 {
    ghost sort = { as_duration };

    fn of_given(alloc: Global, given: Given<L>) -> Result<Option<i64>, NoMemory>
        ensures { IfOk result (λ found. found ≡ as_duration given) }
    {
        let _ = alloc;
        match given {
            Given::Lit(Lit::Dur(nanos)) => Ok(Some(nanos)),
            _ => Ok(None),
        }
    }
}

impl<L: Drop> Sort<L> for Span {
    ghost sort = { as_span };

    fn of_given(alloc: Global, given: Given<L>) -> Result<Option<Span>, NoMemory>
        ensures { IfOk result (λ found. found ≡ as_span given) }
    {
        let _ = alloc;
        match given {
            Given::Lit(Lit::Dur(nanos)) => Ok(Span::from_nanos(nanos)),
            _ => Ok(None),
        }
    }
}

impl<L: Drop> Sort<L> for Period {
    ghost sort = { as_period };

    fn of_given(alloc: Global, given: Given<L>) -> Result<Option<Period>, NoMemory>
        ensures { IfOk result (λ found. found ≡ as_period given) }
    {
        let _ = alloc;
        match given {
            Given::Lit(Lit::Dur(nanos)) => Ok(Period::from_nanos(nanos)),
            _ => Ok(None),
        }
    }
}

impl<L: Drop> Sort<L> for ElapsedUnit {
    ghost sort = { as_unit };

    fn of_given(alloc: Global, given: Given<L>) -> Result<Option<ElapsedUnit>, NoMemory>
        ensures { IfOk result (λ found. found ≡ as_unit given) }
    {
        let _ = alloc;
        match given {
            Given::Lit(Lit::Dur(nanos)) => Ok(ElapsedUnit::from_nanos(nanos)),
            _ => Ok(None),
        }
    }
}

impl<L: Drop> Sort<L> for DefaultValue {
    ghost sort = { as_default };

    fn of_given(alloc: Global, given: Given<L>) -> Result<Option<DefaultValue>, NoMemory>
        ensures { IfOk result (λ found. found ≡ as_default given) }
    {
        let _ = alloc;
        match given {
            Given::Lit(Lit::Int(number)) => Ok(Some(DefaultValue::Int(number))),
            Given::Lit(Lit::Bool(truth)) => Ok(Some(DefaultValue::Bool(truth))),
            Given::Lit(Lit::Str(text)) => match Line::from_text(text) {
                Some(line) => Ok(Some(DefaultValue::Str(line))),
                None => Ok(None),
            },
            _ => Ok(None),
        }
    }
}

/// What this text says stands for a point that is missing.
fn fill_named(text: &Text) -> Option<Fill>
    ensures { result ≡ fill_named text.now }
{
    if is_named(text, "none") {
        Some(Fill::None)
    } else if is_named(text, "null") {
        Some(Fill::Null)
    } else {
        None
    }
}

impl<L: Drop> Sort<L> for Fill {
    ghost sort = { as_fill };

    fn of_given(alloc: Global, given: Given<L>) -> Result<Option<Fill>, NoMemory>
        ensures { IfOk result (λ found. found ≡ as_fill given) }
    {
        let _ = alloc;
        match given {
            Given::Lit(Lit::Str(text)) => Ok(fill_named(text.text())),
            Given::Lit(Lit::Int(number)) => Ok(Some(Fill::Number(number))),
            _ => Ok(None),
        }
    }
}

impl<L: Drop> Sort<L> for u32 {
    ghost sort = { as_node };

    fn of_given(alloc: Global, given: Given<L>) -> Result<Option<u32>, NoMemory>
        ensures { IfOk result (λ found. found ≡ as_node given) }
    {
        let _ = alloc;
        match given {
            Given::Node(number) => Ok(Some(number)),
            _ => Ok(None),
        }
    }
}
