//! The functions by their names: which values each takes, and what it gives.

ghost use Rattle.std.specs.Prelude.{◌≡◌, nat_eq, is_some, length, map, pos, IfOk, IsTrue};
ghost use Rattle.std.specs.Char.{to_ascii_lowercase, to_ascii_uppercase};
ghost use Rattle.std.specs.List.{starts_with, ends_with, list_all};
ghost use Rattle.kap_base.specs.Points.{is_value};
ghost use Rattle.kap_base.specs.Words.{Answers};
ghost use Rattle.kap_base.specs.declared.value.Value.TheVariants.{Int, Bool, Str};
ghost use Rattle.lambda_fns.specs.Calls.{fun_value, int_value, bool_value, string_value, replace_value, substring_value, of_text, of_texts};
ghost use Rattle.lambda_fns.specs.Texts.{first_place, index_of, trimmed};

use crate::convert::{decimal, number, text_of_truth, truth, truth_of_number};
use crate::fault::EvalFault;
use crate::replace::replace;
use crate::texts::{contains, index, lower, substring, trim_space, upper};
use kap_base::{Duplicate, Fun, Value};
use std::alloc::Global;

/// `int(x)`.
fn call_int(args: &[Value], at: u32) -> Result<Value, EvalFault>
    ensures answer { result ≡ int_value at args.now }
    ensures field { IsTrue (list_all is_value args.now) → IfOk result (λ v. IsTrue (is_value v)) }
{
    match args {
        [Value::Int(n)] => Ok(Value::Int(*n)),
        [Value::Bool(b)] => Ok(Value::Int(i64::from(*b))),
        [Value::Str(s)] => match number(s.as_str()) {
            Some(n) => Ok(Value::Int(n)),
            None => Err(EvalFault::Range(at)),
        },
        _ => Err(EvalFault::Kind(at)),
    }
}

/// `bool(x)`.
fn call_bool(args: &[Value], at: u32) -> Result<Value, EvalFault>
    ensures answer { result ≡ bool_value at args.now }
    ensures field { IsTrue (list_all is_value args.now) → IfOk result (λ v. IsTrue (is_value v)) }
{
    match args {
        [Value::Int(n)] => match truth_of_number(*n) {
            Some(b) => Ok(Value::Bool(b)),
            None => Err(EvalFault::Range(at)),
        },
        [Value::Bool(b)] => Ok(Value::Bool(*b)),
        [Value::Str(s)] => match truth(s.bytes()) {
            Some(b) => Ok(Value::Bool(b)),
            None => Err(EvalFault::Range(at)),
        },
        _ => Err(EvalFault::Kind(at)),
    }
}

/// `string(x)`.
fn call_string(alloc: Global, args: &[Value], at: u32) -> Result<Value, EvalFault>
    ensures answer { Answers EvalFault.NoMemory result (string_value at args.now) }
    ensures field { IsTrue (list_all is_value args.now) → IfOk result (λ v. IsTrue (is_value v)) }
{
    match args {
        [Value::Int(n)] => Ok(Value::Str(decimal(alloc, *n)?)),
        [Value::Bool(b)] => Ok(Value::Str(text_of_truth(alloc, *b)?)),
        [Value::Str(s)] => Ok(Value::Str(s.copy(alloc)?)),
        _ => Err(EvalFault::Kind(at)),
    }
}

/// `strLength(s)`.
fn call_length(args: &[Value], at: u32) -> Result<Value, EvalFault>
    ensures answer { result ≡ of_text (λ s. Int (pos (length s))) at args.now }
    ensures field { IsTrue (list_all is_value args.now) → IfOk result (λ v. IsTrue (is_value v)) }
{
    match args {
        [Value::Str(s)] => Ok(Value::Int(s.bytes().len() as i64)),
        _ => Err(EvalFault::Kind(at)),
    }
}

/// `strContains(s, t)`.
fn call_contains(args: &[Value], at: u32) -> Result<Value, EvalFault>
    ensures answer { result ≡ of_texts (λ s t. Bool (is_some (first_place t s))) at args.now }
    ensures field { IsTrue (list_all is_value args.now) → IfOk result (λ v. IsTrue (is_value v)) }
{
    match args {
        [Value::Str(s), Value::Str(t)] => Ok(Value::Bool(contains(s.as_str(), t.as_str()))),
        _ => Err(EvalFault::Kind(at)),
    }
}

/// `strHasPrefix(s, t)`.
fn call_prefix(args: &[Value], at: u32) -> Result<Value, EvalFault>
    ensures answer { result ≡ of_texts (λ s t. Bool (starts_with nat_eq s t)) at args.now }
    ensures field { IsTrue (list_all is_value args.now) → IfOk result (λ v. IsTrue (is_value v)) }
{
    match args {
        [Value::Str(s), Value::Str(t)] => Ok(Value::Bool(s.bytes().starts_with(t.bytes()))),
        _ => Err(EvalFault::Kind(at)),
    }
}

/// `strHasSuffix(s, t)`.
fn call_suffix(args: &[Value], at: u32) -> Result<Value, EvalFault>
    ensures answer { result ≡ of_texts (λ s t. Bool (ends_with nat_eq s t)) at args.now }
    ensures field { IsTrue (list_all is_value args.now) → IfOk result (λ v. IsTrue (is_value v)) }
{
    match args {
        [Value::Str(s), Value::Str(t)] => Ok(Value::Bool(s.bytes().ends_with(t.bytes()))),
        _ => Err(EvalFault::Kind(at)),
    }
}

/// `strIndex(s, t)`.
fn call_index(args: &[Value], at: u32) -> Result<Value, EvalFault>
    ensures answer { result ≡ of_texts (λ s t. Int (index_of s t)) at args.now }
    ensures field { IsTrue (list_all is_value args.now) → IfOk result (λ v. IsTrue (is_value v)) }
{
    match args {
        [Value::Str(s), Value::Str(t)] => Ok(Value::Int(index(s.as_str(), t.as_str()))),
        _ => Err(EvalFault::Kind(at)),
    }
}

/// `strToLower(s)`.
fn call_lower(alloc: Global, args: &[Value], at: u32) -> Result<Value, EvalFault>
    ensures answer { Answers EvalFault.NoMemory result
        (of_text (λ s. Str (map to_ascii_lowercase s)) at args.now) }
    ensures field { IsTrue (list_all is_value args.now) → IfOk result (λ v. IsTrue (is_value v)) }
{
    match args {
        [Value::Str(s)] => Ok(Value::Str(lower(alloc, s.as_str())?)),
        _ => Err(EvalFault::Kind(at)),
    }
}

/// `strToUpper(s)`.
fn call_upper(alloc: Global, args: &[Value], at: u32) -> Result<Value, EvalFault>
    ensures answer { Answers EvalFault.NoMemory result
        (of_text (λ s. Str (map to_ascii_uppercase s)) at args.now) }
    ensures field { IsTrue (list_all is_value args.now) → IfOk result (λ v. IsTrue (is_value v)) }
{
    match args {
        [Value::Str(s)] => Ok(Value::Str(upper(alloc, s.as_str())?)),
        _ => Err(EvalFault::Kind(at)),
    }
}

/// `strTrimSpace(s)`.
fn call_trim(alloc: Global, args: &[Value], at: u32) -> Result<Value, EvalFault>
    ensures answer { Answers EvalFault.NoMemory result
        (of_text (λ s. Str (trimmed s)) at args.now) }
    ensures field { IsTrue (list_all is_value args.now) → IfOk result (λ v. IsTrue (is_value v)) }
{
    match args {
        [Value::Str(s)] => Ok(Value::Str(trim_space(alloc, s.as_str())?)),
        _ => Err(EvalFault::Kind(at)),
    }
}

/// `strReplace(s, a, b, n)`.
fn call_replace(alloc: Global, args: &[Value], at: u32) -> Result<Value, EvalFault>
    ensures answer { Answers EvalFault.NoMemory result (replace_value at args.now) }
    ensures field { IsTrue (list_all is_value args.now) → IfOk result (λ v. IsTrue (is_value v)) }
{
    match args {
        [Value::Str(s), Value::Str(a), Value::Str(b), Value::Int(n)] => {
            match replace(alloc, s.as_str(), a.as_str(), b.as_str(), *n)? {
                Some(made) => Ok(Value::Str(made)),
                None => Err(EvalFault::Range(at)),
            }
        }
        _ => Err(EvalFault::Kind(at)),
    }
}

/// `strSubstring(s, i, j)`.
fn call_substring(alloc: Global, args: &[Value], at: u32) -> Result<Value, EvalFault>
    ensures answer { Answers EvalFault.NoMemory result (substring_value at args.now) }
    ensures field { IsTrue (list_all is_value args.now) → IfOk result (λ v. IsTrue (is_value v)) }
{
    match args {
        [Value::Str(s), Value::Int(i), Value::Int(j)] => {
            match substring(alloc, s.as_str(), *i, *j)? {
                Some(made) => Ok(Value::Str(made)),
                None => Err(EvalFault::Range(at)),
            }
        }
        _ => Err(EvalFault::Kind(at)),
    }
}

/// What a function gives of these values (Kapacitor 1.6 TICKscript language reference: lambda expressions,
/// built-in functions). `Kind(at)` exactly where they aren't of the function's types or not as many as it
/// takes. `Range(at)` exactly where they are, and the function gives no value of them: a text that is no
/// number or truth value, a number that is no truth value, places that aren't in the text, a replaced text
/// above 65,536 bytes. `at` is the call's byte offset in the script.
pub fn call(alloc: Global, fun: Fun, args: &[Value], at: u32) -> Result<Value, EvalFault>
    ensures answer { Answers EvalFault.NoMemory result (fun_value fun args.now at) }
    ensures field { IsTrue (list_all is_value args.now) → IfOk result (λ v. IsTrue (is_value v)) }
{
    match fun {
        Fun::Int => call_int(args, at),
        Fun::Bool => call_bool(args, at),
        Fun::String => call_string(alloc, args, at),
        Fun::StrLength => call_length(args, at),
        Fun::StrContains => call_contains(args, at),
        Fun::StrHasPrefix => call_prefix(args, at),
        Fun::StrHasSuffix => call_suffix(args, at),
        Fun::StrIndex => call_index(args, at),
        Fun::StrToLower => call_lower(alloc, args, at),
        Fun::StrToUpper => call_upper(alloc, args, at),
        Fun::StrTrimSpace => call_trim(alloc, args, at),
        Fun::StrReplace => call_replace(alloc, args, at),
        Fun::StrSubstring => call_substring(alloc, args, at),
    }
}
