//! What a statement says, as words that are not looked at yet.
use crate::token::{Quoted, WordToken};
use tsdb_base::{List, Space};

/// A value as a statement writes it.
#[derive(Drop)]
pub enum Operand<'a> {
    Word(WordToken<'a>),
    Text(Quoted<'a>),
}

/// How a condition compares the time with its number.
#[derive(Clone, Copy, Debug, PartialEq, Eq)]
pub enum Comparison {
    Less,
    LessEqual,
    Greater,
    GreaterEqual,
    Equal,
}

/// A condition of a `where`.
#[derive(Drop)]
pub struct Condition<'a> {
    pub comparison: Comparison,
    pub number: WordToken<'a>,
}

/// An item of a select: a measurement, or an aggregate of one.
#[derive(Drop)]
pub struct SyntaxColumn<'a> {
    pub aggregate: Option<WordToken<'a>>,
    pub measurement: WordToken<'a>,
}

/// What stands at a place of a form that gives a part.
#[derive(Drop)]
pub enum SyntaxPart<'a> {
    Word(WordToken<'a>),
    Names(List<WordToken<'a>>),
    Values(List<Operand<'a>>),
    Columns(List<SyntaxColumn<'a>>),
    Conditions(List<Condition<'a>>),
}

/// A statement, by its form.
#[derive(Drop)]
pub enum Syntax<'a> {
    Create {
        path: WordToken<'a>,
        data_type: WordToken<'a>,
        encoding: WordToken<'a>,
    },
    Insert {
        device: WordToken<'a>,
        names: List<WordToken<'a>>,
        time: WordToken<'a>,
        values: List<Operand<'a>>,
    },
    Delete {
        path: WordToken<'a>,
        conditions: List<Condition<'a>>,
    },
    Select {
        columns: List<SyntaxColumn<'a>>,
        device: WordToken<'a>,
        conditions: List<Condition<'a>>,
    },
    Flush,
    CompactInner {
        space: Space,
    },
    CompactCross,
    ShowFiles,
}
