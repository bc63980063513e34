//! What is said of texts that are no tasks.

ghost use Rattle.std.specs.Prelude.{◌≡◌, ◌++◌, IfOk, codes};
ghost use Rattle.tick_compile.specs.Texts.{graph_text, lex_text, name_text, parse_text, template_text, text_of_fault, type_text, want_name, with_place};

use crate::script_fault::ScriptFault;
use itoa::Buffer;
use kap_base::{Bytes, NoMemory};
use lambda_types::TypeFault;
use msg_template::TemplateFault;
use std::alloc::Global;
use task_graph::GraphFault;
use tick_lexer::LexFault;
use tick_parser::{ParseFault, Want};
use tick_vars::VarFault;

/// A fault's name.
fn alone(alloc: Global, name: &str) -> Result<Bytes, NoMemory>
    ensures { IfOk result (λ text. text ≡ codes "script: " ++ name.now) }
{
    let mut text = Bytes::new(alloc);
    text.append(b"script: ")?;
    text.append(name.as_bytes())?;
    Ok(text)
}

/// A fault's name, and its place.
fn with_place(alloc: Global, name: &str, at: u32) -> Result<Bytes, NoMemory>
    ensures { IfOk result (λ text. text ≡ codes "script: " ++ with_place name.now at) }
{
    let mut digits = Buffer::new();
    let mut text = Bytes::new(alloc);
    text.append(b"script: ")?;
    text.append(name.as_bytes())?;
    text.append(b" at ")?;
    text.append(digits.format(at).as_bytes())?;
    Ok(text)
}

fn lex_text(alloc: Global, fault: &LexFault) -> Result<Bytes, NoMemory>
    ensures { IfOk result (λ text. text ≡ codes "script: " ++ lex_text fault.now) }
{
    match fault {
        LexFault::BadChar(at) => with_place(alloc, "Lex.BadChar", *at),
        LexFault::OpenString(at) => with_place(alloc, "Lex.OpenString", *at),
        LexFault::OpenRegex(at) => with_place(alloc, "Lex.OpenRegex", *at),
        LexFault::BadNumber(at) => with_place(alloc, "Lex.BadNumber", *at),
        LexFault::FloatLiteral(at) => with_place(alloc, "Lex.FloatLiteral", *at),
        LexFault::OctalLiteral(at) => with_place(alloc, "Lex.OctalLiteral", *at),
        LexFault::WideInt(at) => with_place(alloc, "Lex.WideInt", *at),
        LexFault::WideDuration(at) => with_place(alloc, "Lex.WideDuration", *at),
        LexFault::UserFunction(at) => with_place(alloc, "Lex.UserFunction", *at),
        LexFault::NoMemory => alone(alloc, "Lex.NoMemory"),
    }
}

fn expected_name(want: Want) -> &'static str
    ensures { result.now ≡ codes "Parse.Expected." ++ want_name want }
{
    match want {
        Want::Statement => "Parse.Expected.Statement",
        Want::Name => "Parse.Expected.Name",
        Want::Equal => "Parse.Expected.Equal",
        Want::Value => "Parse.Expected.Value",
        Want::Open => "Parse.Expected.Open",
        Want::Close => "Parse.Expected.Close",
        Want::Ref => "Parse.Expected.Ref",
        Want::Dot => "Parse.Expected.Dot",
        Want::Operand => "Parse.Expected.Operand",
    }
}

fn parse_text(alloc: Global, fault: &ParseFault) -> Result<Bytes, NoMemory>
    ensures { IfOk result (λ text. text ≡ codes "script: " ++ parse_text fault.now) }
{
    match fault {
        ParseFault::Expected(want, at) => with_place(alloc, expected_name(*want), *at),
        ParseFault::Deep(at) => with_place(alloc, "Parse.Deep", *at),
        ParseFault::TooMany(at) => with_place(alloc, "Parse.TooMany", *at),
        ParseFault::NoMemory => alone(alloc, "Parse.NoMemory"),
    }
}

fn name_text(alloc: Global, fault: &VarFault) -> Result<Bytes, NoMemory>
    ensures { IfOk result (λ text. text ≡ codes "script: " ++ name_text fault.now) }
{
    match fault {
        VarFault::Unknown(at) => with_place(alloc, "Name.Unknown", *at),
        VarFault::Twice(at) => with_place(alloc, "Name.Twice", *at),
        VarFault::NotValue(at) => with_place(alloc, "Name.NotValue", *at),
        VarFault::NotNode(at) => with_place(alloc, "Name.NotNode", *at),
        VarFault::Batch(at) => with_place(alloc, "Name.Batch", *at),
        VarFault::NoMemory => alone(alloc, "Name.NoMemory"),
    }
}

fn template_text(alloc: Global, at: u32, fault: &TemplateFault) -> Result<Bytes, NoMemory>
    ensures { IfOk result (λ text. text ≡ codes "script: " ++ template_text at fault.now) }
{
    match fault {
        TemplateFault::Action(_) => with_place(alloc, "Template.Action", at),
        TemplateFault::Field(_) => with_place(alloc, "Template.Field", at),
        TemplateFault::NoMemory => alone(alloc, "Template.NoMemory"),
    }
}

fn type_text(alloc: Global, fault: &TypeFault) -> Result<Bytes, NoMemory>
    ensures { IfOk result (λ text. text ≡ codes "script: " ++ type_text fault.now) }
{
    match fault {
        TypeFault::Mismatch(at) => with_place(alloc, "Lambda.Mismatch", *at),
        TypeFault::Arity(at) => with_place(alloc, "Lambda.Arity", *at),
        TypeFault::NoFunction(at) => with_place(alloc, "Lambda.NoFunction", *at),
        TypeFault::TimeUse(at) => with_place(alloc, "Lambda.TimeUse", *at),
        TypeFault::RegexUse(at) => with_place(alloc, "Lambda.RegexUse", *at),
        TypeFault::Pattern(at) => with_place(alloc, "Lambda.Pattern", *at),
        TypeFault::NewLine(at) => with_place(alloc, "Lambda.NewLine", *at),
        TypeFault::NoMemory => alone(alloc, "Lambda.NoMemory"),
    }
}

fn graph_text(alloc: Global, fault: &GraphFault) -> Result<Bytes, NoMemory>
    ensures { IfOk result (λ text. text ≡ codes "script: " ++ graph_text fault.now) }
{
    match fault {
        GraphFault::TooManyNodes => alone(alloc, "Graph.TooManyNodes"),
        GraphFault::Chain(node) => with_place(alloc, "Graph.Chain", *node),
        GraphFault::Parents(node) => with_place(alloc, "Graph.Parents", *node),
        GraphFault::Kind(node) => with_place(alloc, "Graph.Kind", *node),
        GraphFault::NoMemory => alone(alloc, "Graph.NoMemory"),
    }
}

/// What is said of a script's fault: `script: `, the names of the fault's variants joined by dots, and ` at `
/// with its place; of `Template` the place in the script, and of `Graph` the node's number in its stead.
/// `NoFrom`, `TooManyNodes` and want of memory have no place (this project).
pub fn script_text(alloc: Global, fault: &ScriptFault) -> Result<Bytes, NoMemory>
    ensures { IfOk result (λ text. text ≡ text_of_fault fault.now) }
{
    match fault {
        ScriptFault::NotUtf8(at) => with_place(alloc, "NotUtf8", *at),
        ScriptFault::Lex(fault) => lex_text(alloc, fault),
        ScriptFault::Parse(fault) => parse_text(alloc, fault),
        ScriptFault::Name(fault) => name_text(alloc, fault),
        ScriptFault::NoKind(at) => with_place(alloc, "NoKind", *at),
        ScriptFault::Property(at) => with_place(alloc, "Property", *at),
        ScriptFault::Argument(at) => with_place(alloc, "Argument", *at),
        ScriptFault::Handler(at) => with_place(alloc, "Handler", *at),
        ScriptFault::Template(at, fault) => template_text(alloc, *at, fault),
        ScriptFault::Lambda(fault) => type_text(alloc, fault),
        ScriptFault::Graph(fault) => graph_text(alloc, fault),
        ScriptFault::NoFrom => alone(alloc, "NoFrom"),
        ScriptFault::NoMemory => alone(alloc, "NoMemory"),
    }
}
