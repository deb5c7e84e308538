ghost use Rattle.std.specs.Prelude.{◌≡◌, option_copied};
ghost use Rattle.cedr_plan.specs.Operators.{operator_row, operators, operator_of, goes_by, member_key, form_of, is_optional};

/// What a node does.
#[derive(Clone, Copy, PartialEq, Eq)]
pub(crate) enum Operator {
    Source,
    Select,
    Project,
    Union,
    Join,
    Window,
    Shift,
    Hop,
    Starts,
    Ends,
    Group,
    /// A group that may ask for the least and the greatest fields of columns.
    RangedGroup,
    Sequence,
    Unless,
    AtLeast,
    Except,
    Output,
}

/// A member that some operators ask for beside `name`, `op`, `from` and `level`.
#[derive(Clone, Copy, PartialEq, Eq)]
pub(crate) enum Member {
    File,
    Fields,
    Where,
    Keep,
    Keys,
    Count,
    Sum,
    Least,
    Greatest,
    Width,
    By,
    Every,
    Scope,
    Hold,
    Number,
}

/// What a member has to be.
#[derive(Clone, Copy, PartialEq, Eq)]
pub(crate) enum Form {
    Text,
    Types,
    Tests,
    Columns,
    /// Columns that are numbers.
    Sums,
    /// Columns, and none where the member isn't there.
    OptionalColumns,
    Truth,
    Number,
    /// How many of the inputs.
    InputCount,
}

/// Which field types a result has.
#[derive(Clone, Copy, PartialEq, Eq)]
pub(crate) enum Outcome {
    /// Those that the node declares.
    Declared,
    /// Those of the first port.
    First,
    /// Those of the first port, which all ports have.
    Alike,
    /// Those of the columns that are kept.
    Kept,
    /// Those of all ports, in port order.
    Joined,
    /// Those of the first port, which all ports have, so many times as `number` says.
    Repeated,
    /// Those of the keys, of the count and of the sums.
    Grouped,
    /// Those, and of the columns whose least and greatest fields are asked for.
    Ranged,
}

/// An operator as the plan language has it.
#[derive(Clone, Copy)]
pub(crate) struct Row {
    pub word: &'static str,
    /// The version of the plan language from which on the word means it.
    pub since: u64,
    pub least: usize,
    pub most: usize,
    pub members: &'static [Member],
    pub outcome: Outcome,
}

/// Those of a newer version stand before those of an older one.
const OPERATORS: [Operator; 17] = [
    Operator::RangedGroup,
    Operator::AtLeast,
    Operator::Except,
    Operator::Source,
    Operator::Select,
    Operator::Project,
    Operator::Union,
    Operator::Join,
    Operator::Window,
    Operator::Shift,
    Operator::Hop,
    Operator::Starts,
    Operator::Ends,
    Operator::Group,
    Operator::Sequence,
    Operator::Unless,
    Operator::Output,
];

const fn row_with(
    word: &'static str,
    since: u64,
    least: usize,
    most: usize,
    members: &'static [Member],
    outcome: Outcome,
) -> Row
    ensures word { result.word.now ≡ word.now }
    ensures since { result.since ≡ since }
    ensures least { result.least ≡ least }
    ensures most { result.most ≡ most }
    ensures members { result.members.now ≡ members.now }
    ensures outcome { result.outcome ≡ outcome }
{
    Row {
        word,
        since,
        least,
        most,
        members,
        outcome,
    }
}

impl Operator {
    /// The operator's row.
    pub(crate) fn row(self) -> Row
        ensures word { result.word.now ≡ (operator_row self).word }
        ensures since { result.since ≡ (operator_row self).since }
        ensures least { result.least ≡ (operator_row self).least }
        ensures most { result.most ≡ (operator_row self).most }
        ensures members { result.members.now ≡ (operator_row self).members }
        ensures outcome { result.outcome ≡ (operator_row self).outcome }
    {
        match self {
            Operator::Source => row_with(
                "source",
                1,
                0,
                0,
                &[Member::File, Member::Fields],
                Outcome::Declared,
            ),
            Operator::Select => row_with("select", 1, 1, 1, &[Member::Where], Outcome::First),
            Operator::Project => row_with("project", 1, 1, 1, &[Member::Keep], Outcome::Kept),
            Operator::Union => row_with("union", 1, 2, 4, &[], Outcome::Alike),
            Operator::Join => row_with("join", 1, 2, 2, &[Member::Where], Outcome::Joined),
            Operator::Window => row_with("window", 1, 1, 1, &[Member::Width], Outcome::First),
            Operator::Shift => row_with("shift", 1, 1, 1, &[Member::By], Outcome::First),
            Operator::Hop => row_with(
                "hop",
                1,
                1,
                1,
                &[Member::Every, Member::Width],
                Outcome::First,
            ),
            Operator::Starts => row_with("starts", 1, 1, 1, &[], Outcome::First),
            Operator::Ends => row_with("ends", 1, 1, 1, &[], Outcome::First),
            Operator::Group => row_with(
                "group",
                1,
                1,
                1,
                &[Member::Keys, Member::Count, Member::Sum],
                Outcome::Grouped,
            ),
            Operator::RangedGroup => row_with(
                "group",
                2,
                1,
                1,
                &[
                    Member::Keys,
                    Member::Count,
                    Member::Sum,
                    Member::Least,
                    Member::Greatest,
                ],
                Outcome::Ranged,
            ),
            Operator::Sequence => row_with(
                "sequence",
                1,
                2,
                4,
                &[Member::Scope, Member::Where],
                Outcome::Joined,
            ),
            Operator::Unless => row_with(
                "unless",
                1,
                2,
                2,
                &[Member::Scope, Member::Hold, Member::Where],
                Outcome::First,
            ),
            Operator::AtLeast => row_with(
                "atleast",
                2,
                2,
                4,
                &[Member::Number, Member::Scope, Member::Where],
                Outcome::Repeated,
            ),
            Operator::Except => row_with("except", 2, 2, 2, &[Member::Where], Outcome::First),
            Operator::Output => row_with("output", 1, 1, 1, &[], Outcome::First),
        }
    }

    /// The operator of a word in this version: the newest one that is known in it.
    pub(crate) fn of_word(version: u64, word: &str) -> Option<Operator>
        ensures { result ≡ operator_of version word.now }
    {
        OPERATORS
            .iter()
            .copied()
            .find(|operator| operator.goes_by(version, word))
    }

    fn goes_by(self, version: u64, word: &str) -> bool
        ensures { result ≡ goes_by version word.now self }
    {
        let row = self.row();
        row.since <= version && row.word == word
    }
}

impl Member {
    /// The member's name.
    pub(crate) fn key(self) -> &'static str
        ensures { result.now ≡ member_key self }
    {
        match self {
            Member::File => "file",
            Member::Fields => "fields",
            Member::Where => "where",
            Member::Keep => "keep",
            Member::Keys => "keys",
            Member::Count => "count",
            Member::Sum => "sum",
            Member::Least => "least",
            Member::Greatest => "greatest",
            Member::Width => "width",
            Member::By => "by",
            Member::Every => "every",
            Member::Scope => "scope",
            Member::Hold => "hold",
            Member::Number => "number",
        }
    }

    pub(crate) fn form(self) -> Form
        ensures { result ≡ form_of self }
    {
        match self {
            Member::File => Form::Text,
            Member::Fields => Form::Types,
            Member::Where => Form::Tests,
            Member::Keep | Member::Keys => Form::Columns,
            Member::Count => Form::Truth,
            Member::Sum => Form::Sums,
            Member::Least | Member::Greatest => Form::OptionalColumns,
            Member::Width | Member::By | Member::Every | Member::Scope | Member::Hold =>
                Form::Number,
            Member::Number => Form::InputCount,
        }
    }
}

impl Form {
    /// Whether a node may do without a member of this form.
    pub(crate) fn is_optional(self) -> bool
        ensures { result ≡ is_optional self }
    {
        matches!(self, Form::OptionalColumns)
    }
}
