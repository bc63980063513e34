//! What each kind of node is given (Kapacitor 1.6 node reference). `L` is the type of its lambdas.

use crate::sorts::{Count, ElapsedUnit, Line, Measurement, Name, Period, Span};
use kap_base::{Dbrps, ItemList, SharedText, Text};
use lambda_types::Lambda;
use msg_template::Template;

/// The numbers of nodes.
pub type Ids = ItemList<u32>;

/// Texts of a script, which it may use many times.
pub type SharedNames = ItemList<SharedText>;

/// The dimensions that a node sets.
#[derive(Debug, Drop)]
pub enum Dims {
    /// The tags of these names, as the script has them.
    Names(SharedNames),
    /// Each tag of the point.
    All,
}

/// `from()`: the points of the stream that agree with each of these, then grouped anew.
#[derive(Drop)]
pub struct FromSpec<L> {
    /// `.database`.
    pub database: Option<Text>,
    /// `.retentionPolicy`.
    pub retention_policy: Option<Text>,
    /// `.measurement`.
    pub measurement: Option<Text>,
    /// Each `.where`, in order: they are joined by AND.
    pub conditions: ItemList<L>,
    /// `.groupBy`; no dimensions where there is none.
    pub dims: Dims,
    /// `.groupByMeasurement`.
    pub by_measurement: bool,
}

/// Which fields `eval` keeps.
#[derive(Debug, Drop)]
pub enum Keep {
    /// The results alone.
    Results,
    /// All fields and results.
    All,
    /// Those of these names that are there.
    Names(SharedNames),
}

/// `eval(l..)`: lambdas in order, each with the name of its result.
#[derive(Drop)]
pub struct EvalSpec<L> {
    /// The lambdas and the names of their results, at least one, in order.
    pub results: ItemList<EvalResult<L>>,
    /// `.keep`.
    pub keep: Keep,
}

/// A lambda of `eval` and the name of its result.
#[derive(Drop)]
pub struct EvalResult<L> {
    /// The lambda.
    pub lambda: L,
    /// The field that its value becomes.
    pub name: Name,
}

/// `groupBy(s..)` or `groupBy(*)`.
#[derive(Debug, Drop)]
pub struct GroupBySpec {
    /// The dimensions.
    pub dims: Dims,
    /// `.byMeasurement`.
    pub by_measurement: bool,
}

/// `log()`. Both are accepted and have no effect.
#[derive(Debug, Drop)]
pub struct LogSpec {
    /// `.level`.
    pub level: Option<Text>,
    /// `.prefix`.
    pub prefix: Option<Text>,
}

/// A value that `default` sets.
#[derive(Debug, Drop)]
pub enum DefaultValue {
    /// An integer.
    Int(i64),
    /// A truth value.
    Bool(bool),
    /// A text on one line.
    Str(Line),
}

/// A property of `default`.
#[derive(Debug, Drop)]
pub enum DefaultSetting {
    /// `.field`: the field of this name has this value where it is missing.
    Field(Name, DefaultValue),
    /// `.tag`: the tag of this name has this value where it is missing.
    Tag(Name, Name),
}

/// A property of `delete`.
#[derive(Debug, Drop)]
pub enum DeleteSetting {
    /// `.field`: the field of this name goes.
    Field(SharedText),
    /// `.tag`: the tag of this name goes, from the dimensions too.
    Tag(SharedText),
}

/// `window()`, in its two forms.
#[derive(Clone, Copy, Debug)]
pub enum WindowSpec {
    /// By time.
    Timed {
        /// `.period`.
        period: Period,
        /// `.every`, 0 where it isn't given.
        every: Span,
        /// `.align`.
        align: bool,
        /// `.fillPeriod`.
        fill_period: bool,
    },
    /// By the number of points.
    Counted {
        /// `.periodCount`.
        period_count: Count,
        /// `.everyCount`, 1 where it isn't given.
        every_count: Count,
        /// `.fillPeriod`.
        fill_period: bool,
    },
}

/// What is chosen of a batch.
#[derive(Clone, Copy, Debug)]
pub enum Select {
    /// `sum`.
    Sum,
    /// `count`.
    Count,
    /// `min`.
    Min,
    /// `max`.
    Max,
    /// `first`.
    First,
    /// `last`.
    Last,
    /// `spread`.
    Spread,
    /// `distinct`.
    Distinct,
    /// `top`, with the number of points.
    Top(Count),
    /// `bottom`, with the number of points.
    Bottom(Count),
}

/// A select node.
#[derive(Debug, Drop)]
pub struct SelectSpec {
    /// What is chosen.
    pub select: Select,
    /// By which field.
    pub field: Text,
    /// `.as`; the result is named as the node where there is none.
    pub name: Option<Name>,
    /// `.usePointTimes`.
    pub use_point_times: bool,
}

/// `stateCount(l)`.
#[derive(Drop)]
pub struct StateCountSpec<L> {
    /// The condition.
    pub condition: L,
    /// `.as`, `state_count` where there is none.
    pub name: Option<Name>,
}

/// `difference(f)` or `cumulativeSum(f)`.
#[derive(Debug, Drop)]
pub struct FieldSpec {
    /// The field.
    pub field: Text,
    /// `.as`; the result is named as the node where there is none.
    pub name: Option<Name>,
}

/// `elapsed(f, d)`.
#[derive(Debug, Drop)]
pub struct ElapsedSpec {
    /// The field that a point must have.
    pub field: Text,
    /// What is counted in.
    pub unit: ElapsedUnit,
    /// `.as`, `elapsed` where there is none.
    pub name: Option<Name>,
}

/// What stands for a parent that has no point in a set.
#[derive(Clone, Copy, Debug)]
pub enum Fill {
    /// `.fill('none')`, or no `.fill`: sets that aren't full are not given.
    None,
    /// `.fill('null')`: nothing.
    Null,
    /// `.fill(n)`: this number.
    Number(i64),
}

/// `join(node..)`. There are as many prefixes as parents, all different.
#[derive(Debug, Drop)]
pub struct JoinSpec {
    /// `.as`.
    pub prefixes: ItemList<Name>,
    /// `.tolerance`, 0 where it isn't given.
    pub tolerance: Span,
    /// `.fill`.
    pub fill: Fill,
    /// `.streamName`.
    pub stream_name: Option<Measurement>,
    /// `.delimiter`, a dot where it isn't given.
    pub delimiter: Option<Line>,
}

/// Conditions of the three levels of an alert above OK.
#[derive(Drop)]
pub struct Conditions<L> {
    /// Of INFO.
    pub info: Option<L>,
    /// Of WARNING.
    pub warn: Option<L>,
    /// Of CRITICAL.
    pub crit: Option<L>,
}

/// `alert()`.
#[derive(Drop)]
pub struct AlertSpec<L> {
    /// `.info`, `.warn`, `.crit`.
    pub levels: Conditions<L>,
    /// `.infoReset`, `.warnReset`, `.critReset`.
    pub resets: Conditions<L>,
    /// `.id`.
    pub id: Option<Template>,
    /// `.message`.
    pub message: Option<Template>,
    /// `.topic`; the topic is that of the task and the node where there is none.
    pub topic: Option<Text>,
    /// `.log`, which has no effect.
    pub path: Option<Text>,
    /// `.stateChangesOnly`.
    pub state_changes_only: bool,
    /// `.noRecoveries`.
    pub no_recoveries: bool,
}

/// What a node is given, one variant a kind.
#[derive(Drop)]
pub enum Spec<L = Lambda> {
    /// The stream, with what its task sees.
    Stream(Dbrps),
    /// `from`.
    From(FromSpec<L>),
    /// `where`.
    Where(L),
    /// `eval`.
    Eval(EvalSpec<L>),
    /// `groupBy`.
    GroupBy(GroupBySpec),
    /// `log`.
    Log(LogSpec),
    /// `default`, with its properties in order.
    Default(ItemList<DefaultSetting>),
    /// `delete`, with its properties in order.
    Delete(ItemList<DeleteSetting>),
    /// `shift`, in nanoseconds.
    Shift(i64),
    /// `sample`.
    Sample(Count),
    /// `window`.
    Window(WindowSpec),
    /// A select node.
    Select(SelectSpec),
    /// `stateCount`.
    StateCount(StateCountSpec<L>),
    /// `changeDetect`, with its fields.
    ChangeDetect(SharedNames),
    /// `difference`.
    Difference(FieldSpec),
    /// `cumulativeSum`.
    CumulativeSum(FieldSpec),
    /// `elapsed`.
    Elapsed(ElapsedSpec),
    /// `union`, with its `.rename`.
    Union(Option<Measurement>),
    /// `join`.
    Join(JoinSpec),
    /// `alert`.
    Alert(AlertSpec<L>),
}

/// A node of a task.
#[derive(Drop)]
pub struct NodeSpec<L = Lambda> {
    /// Its kind and its number, as `log2`.
    pub name: Text,
    /// What it is given.
    pub spec: Spec<L>,
    /// The numbers of its parents.
    pub parents: Ids,
}

/// The nodes of a task, by their numbers.
pub type NodeSpecs<L = Lambda> = ItemList<NodeSpec<L>>;
