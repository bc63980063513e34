//! Why a text is no task.

ghost use Rattle.std.specs.Prelude.{◌≡◌};
ghost use Rattle.tick_compile.specs.Faults.{of_lex, of_name, of_parse};
ghost use Rattle.tick_compile.specs.declared.script_fault.ScriptFault.TheVariants.{NoMemory as no_memory};

use kap_base::NoMemory;
use lambda_types::TypeFault;
use msg_template::TemplateFault;
use task_graph::GraphFault;
use tick_lexer::LexFault;
use tick_parser::ParseFault;
use tick_vars::VarFault;

/// The first fault of a text that is no task (Kapacitor 1.6 TICKscript language and node reference): of its
/// bytes, its tokens, its grammar and its names; then of its nodes, in the order in which they are made, each
/// of its kind, its arguments, its properties in the order of the script and what it asks as a whole; then of
/// all lambdas' types in that order; then of the graph; and last that there is no `from`. A number is a
/// place, a byte offset in the script.
#[derive(Clone, Copy, Debug, PartialEq, Eq)]
pub enum ScriptFault {
    /// The text isn't UTF-8. The place is that of the first byte that doesn't continue a character, or the
    /// text's length where it ends inside a character.
    NotUtf8(u32),
    /// It has no tokens.
    Lex(LexFault),
    /// Its tokens are no script's.
    Parse(ParseFault),
    /// Its names don't stand for what they should.
    Name(VarFault),
    /// No node has this kind.
    NoKind(u32),
    /// The node has no such property.
    Property(u32),
    /// The node or the property of this name isn't given what it takes, or the node's properties don't go
    /// together.
    Argument(u32),
    /// An alert has this handler in Kapacitor, and not here.
    Handler(u32),
    /// The property of this name is given no template.
    Template(u32, TemplateFault),
    /// A lambda has no type, or none that its node takes.
    Lambda(TypeFault),
    /// The nodes are no graph. The number in it is that of a node.
    Graph(GraphFault),
    /// There is no `from`.
    NoFrom,
    /// Memory ran out.
    NoMemory,
}

impl From<NoMemory> for ScriptFault {
    ghost from_gives = { λ _ f. f ≡ no_memory };

    fn from(_: NoMemory) -> Self {
        ScriptFault::NoMemory
    }
}

impl From<LexFault> for ScriptFault {
    ghost from_gives = { λ fault f. f ≡ of_lex fault };

    fn from(fault: LexFault) -> Self {
        match fault {
            LexFault::NoMemory => ScriptFault::NoMemory,
            _ => ScriptFault::Lex(fault),
        }
    }
}

impl From<ParseFault> for ScriptFault {
    ghost from_gives = { λ fault f. f ≡ of_parse fault };

    fn from(fault: ParseFault) -> Self {
        match fault {
            ParseFault::NoMemory => ScriptFault::NoMemory,
            _ => ScriptFault::Parse(fault),
        }
    }
}

impl From<VarFault> for ScriptFault {
    ghost from_gives = { λ fault f. f ≡ of_name fault };

    fn from(fault: VarFault) -> Self {
        match fault {
            VarFault::NoMemory => ScriptFault::NoMemory,
            _ => ScriptFault::Name(fault),
        }
    }
}
