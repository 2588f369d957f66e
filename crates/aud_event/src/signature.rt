//! What the rows of operations and of kinds say, and what follows from them.

ghost use Rattle.std.specs.Prelude.{◌≡◌};
ghost use Rattle.aud_event.specs.declared.signature.Format.TheVariants.{One, Two};
ghost use Rattle.aud_event.specs.Limits.{transactions};
ghost use Rattle.aud_event.specs.Objects.{row, kind_row, has_since, args_fit, observes, is_observing, is_of_kind, is_answer_of, has_fitting_args};
ghost use Rattle.aud_event.specs.Words.{op_of_word_in, kind_of_word_in};

use crate::limits::{GREATEST_ADDEND, LEAST_ADDEND, TRANSACTIONS, TRANSACTIONS_ONE};
use crate::object::{Answer, ObjKind, Op, OpName};

/// The formats of texts. The second has what the first has, and more kinds, operations and transactions.
#[derive(Clone, Copy, Debug, PartialEq, Eq, PartialOrd, Ord)]
pub enum Format {
    One,
    Two,
}

/// What an operation takes.
#[derive(Clone, Copy, Debug, PartialEq, Eq)]
pub enum Takes {
    Nothing,
    /// Any i64.
    Number,
    /// A number from -2^31 to 2^31.
    Addend,
    /// A key and a value, each any i64.
    Pair,
}

/// What an operation gives for an answer.
#[derive(Clone, Copy, Debug, PartialEq, Eq)]
pub enum Gives {
    Done,
    Int,
    Flag,
    IntOrEmpty,
}

/// The arguments of an operation.
#[derive(Clone, Copy, Debug, PartialEq, Eq)]
pub enum Args {
    Nothing,
    Number(i64),
    /// A key and a value.
    Pair(i64, i64),
}

/// A row of the table of operations.
#[derive(Clone, Copy, Debug, PartialEq, Eq)]
pub struct Signature {
    /// The kind of objects that have the operation.
    pub kind: ObjKind,
    pub takes: Takes,
    pub gives: Gives,
    /// Whether it leaves every state as it is.
    pub observes: bool,
    /// The first format that has it.
    pub since: Format,
}

/// Where objects of a kind may open.
#[derive(Clone, Copy, Debug, PartialEq, Eq)]
pub enum Opens {
    /// At any value.
    Anywhere,
    /// From -2^62 to 2^62.
    InRange,
    /// Empty; the declaration has 0.
    Empty,
}

/// A row of the table of kinds.
#[derive(Clone, Copy, Debug, PartialEq, Eq)]
pub struct KindRow {
    pub opens: Opens,
    /// The first format that has the kind.
    pub since: Format,
}

/// A row of the first format.
pub(crate) fn one(kind: ObjKind, takes: Takes, gives: Gives, observes: bool) -> Signature
    ensures { result ≡ row kind takes gives observes One }
{
    Signature {
        kind,
        takes,
        gives,
        observes,
        since: Format::One,
    }
}

/// A row that came with the second format.
pub(crate) fn two(kind: ObjKind, takes: Takes, gives: Gives, observes: bool) -> Signature
    ensures { result ≡ row kind takes gives observes Two }
{
    Signature {
        kind,
        takes,
        gives,
        observes,
        since: Format::Two,
    }
}

/// A row of a kind.
pub(crate) fn kind_row(opens: Opens, since: Format) -> KindRow
    ensures { result ≡ kind_row opens since }
{
    KindRow { opens, since }
}

impl Op {
    /// Whether the operation leaves every state as it is.
    pub fn observes(&self) -> bool
        ensures { result ≡ is_observing self.now }
    {
        self.name().observes()
    }

    /// Whether the arguments are such as the operation takes: what is added to a counter at once is from -2^31 to 2^31.
    pub fn has_fitting_args(&self) -> bool
        ensures { result ≡ has_fitting_args self.now }
    {
        self.args().fit(self.name().signature().takes)
    }
}

impl OpName {
    /// Whether the operation leaves every state as it is.
    pub fn observes(&self) -> bool
        ensures { result ≡ observes self.now }
    {
        self.signature().observes
    }

    /// Whether objects of the kind have the operation.
    pub fn is_of(&self, kind: ObjKind) -> bool
        ensures { result ≡ is_of_kind kind self.now }
    {
        self.signature().kind == kind
    }

    /// Whether the operation can have the answer.
    pub fn can_answer(&self, answer: Answer) -> bool
        ensures { result ≡ is_answer_of self.now answer }
    {
        match (self.signature().gives, answer) {
            (Gives::Done, Answer::Done) => true,
            (Gives::Int | Gives::IntOrEmpty, Answer::Int(_)) => true,
            (Gives::Flag, Answer::Flag(_)) => true,
            (Gives::IntOrEmpty, Answer::Empty) => true,
            _ => false,
        }
    }

    /// The operation that has the word in the format, if one has it.
    pub fn from_word_in(format: Format, word: &str) -> Option<OpName>
        ensures { result ≡ op_of_word_in format word.now }
    {
        let name = OpName::from_word(word)?;
        if format.has(name.signature().since) {
            Some(name)
        } else {
            None
        }
    }
}

impl ObjKind {
    /// The kind that has the word in the format, if one has it.
    pub fn from_word_in(format: Format, word: &str) -> Option<ObjKind>
        ensures { result ≡ kind_of_word_in format word.now }
    {
        let kind = ObjKind::from_word(word)?;
        if format.has(kind.row().since) {
            Some(kind)
        } else {
            None
        }
    }
}

impl Format {
    /// Whether the format has what came with the format `since`.
    pub fn has(&self, since: Format) -> bool
        ensures { result ≡ has_since self.now since }
    {
        match (self, since) {
            (Format::One, Format::Two) => false,
            (Format::One | Format::Two, Format::One) => true,
            (Format::Two, Format::Two) => true,
        }
    }

    /// Transactions' numbers are below this: 1,024 in the first format, 4,096 in the second.
    pub fn transactions(&self) -> u32
        ensures { result ≡ transactions self.now }
    {
        match self {
            Format::One => TRANSACTIONS_ONE,
            Format::Two => TRANSACTIONS,
        }
    }
}

impl Args {
    /// Whether an operation that takes such takes these.
    pub fn fit(&self, takes: Takes) -> bool
        ensures { result ≡ args_fit takes self.now }
    {
        match (takes, self) {
            (Takes::Nothing, Args::Nothing) => true,
            (Takes::Number, Args::Number(_)) => true,
            (Takes::Addend, Args::Number(addend)) => {
                LEAST_ADDEND <= *addend && *addend <= GREATEST_ADDEND
            }
            (Takes::Pair, Args::Pair(_, _)) => true,
            _ => false,
        }
    }
}
