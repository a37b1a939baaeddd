//! The forms of statements as a table: each form is a row of places, and the parser walks it. Depends on std alone.
ghost use Rattle.std.specs.Prelude.{◌≡◌};
ghost use Rattle.tsdb_script.specs.Forms.{keyword_text, places};
ghost use Rattle.tsdb_script.specs.Parse.{is_keyword_place};

/// A word that a form has.
#[derive(Clone, Copy)]
pub enum Keyword {
    And,
    Compact,
    Create,
    Cross,
    DataType,
    Delete,
    Encoding,
    Files,
    Flush,
    From,
    Inner,
    Insert,
    Into,
    Select,
    Sequence,
    Show,
    Time,
    TimeSeries,
    Unsequence,
    Values,
    Where,
    With,
}

impl Keyword {
    /// The keyword in lower case.
    pub fn text(self) -> &'static [u8]
        ensures { result.now ≡ keyword_text self }
    {
        match self {
            Keyword::And => b"and",
            Keyword::Compact => b"compact",
            Keyword::Create => b"create",
            Keyword::Cross => b"cross",
            Keyword::DataType => b"datatype",
            Keyword::Delete => b"delete",
            Keyword::Encoding => b"encoding",
            Keyword::Files => b"files",
            Keyword::Flush => b"flush",
            Keyword::From => b"from",
            Keyword::Inner => b"inner",
            Keyword::Insert => b"insert",
            Keyword::Into => b"into",
            Keyword::Select => b"select",
            Keyword::Sequence => b"sequence",
            Keyword::Show => b"show",
            Keyword::Time => b"time",
            Keyword::TimeSeries => b"timeseries",
            Keyword::Unsequence => b"unsequence",
            Keyword::Values => b"values",
            Keyword::Where => b"where",
            Keyword::With => b"with",
        }
    }
}

/// What stands at a place of a form.
#[derive(Clone, Copy)]
pub enum FormPlace {
    /// A keyword, in any ASCII case.
    Keyword(Keyword),
    /// `timestamp` or `time`, in any ASCII case.
    Timestamp,
    Open,
    Close,
    Comma,
    Equal,
    /// A word.
    Word,
    /// Words, with commas between them.
    Names,
    /// Words and texts, with commas between them.
    Values,
    /// Items `M` and `W ( M )`, with commas between them.
    Columns,
    /// Nothing, or `where` and conditions `time op N`, with `and` between them.
    Where,
}

impl FormPlace {
    /// Whether it is a place for a keyword.
    pub fn is_keyword(self) -> bool
        ensures { result ≡ is_keyword_place self }
    {
        matches!(self, FormPlace::Keyword(_))
    }
}

/// The form of a statement.
#[derive(Clone, Copy)]
pub enum Form {
    Create,
    Insert,
    Delete,
    Select,
    Flush,
    CompactSequence,
    CompactUnsequence,
    CompactCross,
    ShowFiles,
}

/// All forms. The frequent ones come first, which saves time and means nothing.
pub const FORMS: &[Form] = &[
    Form::Insert,
    Form::Select,
    Form::Delete,
    Form::Create,
    Form::Flush,
    Form::CompactSequence,
    Form::CompactUnsequence,
    Form::CompactCross,
    Form::ShowFiles,
];

/// `create timeseries P with datatype = W , encoding = W`
pub const CREATE: &[FormPlace] = &[
    FormPlace::Keyword(Keyword::Create),
    FormPlace::Keyword(Keyword::TimeSeries),
    FormPlace::Word,
    FormPlace::Keyword(Keyword::With),
    FormPlace::Keyword(Keyword::DataType),
    FormPlace::Equal,
    FormPlace::Word,
    FormPlace::Comma,
    FormPlace::Keyword(Keyword::Encoding),
    FormPlace::Equal,
    FormPlace::Word,
];

/// `insert into D ( timestamp , M , M .. ) values ( N , V , V .. )`
pub const INSERT: &[FormPlace] = &[
    FormPlace::Keyword(Keyword::Insert),
    FormPlace::Keyword(Keyword::Into),
    FormPlace::Word,
    FormPlace::Open,
    FormPlace::Timestamp,
    FormPlace::Comma,
    FormPlace::Names,
    FormPlace::Close,
    FormPlace::Keyword(Keyword::Values),
    FormPlace::Open,
    FormPlace::Word,
    FormPlace::Comma,
    FormPlace::Values,
    FormPlace::Close,
];

/// `delete from P`, and conditions or none
pub const DELETE: &[FormPlace] = &[
    FormPlace::Keyword(Keyword::Delete),
    FormPlace::Keyword(Keyword::From),
    FormPlace::Word,
    FormPlace::Where,
];

/// `select I , I .. from D`, and conditions or none
pub const SELECT: &[FormPlace] = &[
    FormPlace::Keyword(Keyword::Select),
    FormPlace::Columns,
    FormPlace::Keyword(Keyword::From),
    FormPlace::Word,
    FormPlace::Where,
];

pub const FLUSH: &[FormPlace] = &[FormPlace::Keyword(Keyword::Flush)];

pub const COMPACT_SEQUENCE: &[FormPlace] = &[
    FormPlace::Keyword(Keyword::Compact),
    FormPlace::Keyword(Keyword::Inner),
    FormPlace::Keyword(Keyword::Sequence),
];

pub const COMPACT_UNSEQUENCE: &[FormPlace] = &[
    FormPlace::Keyword(Keyword::Compact),
    FormPlace::Keyword(Keyword::Inner),
    FormPlace::Keyword(Keyword::Unsequence),
];

pub const COMPACT_CROSS: &[FormPlace] = &[
    FormPlace::Keyword(Keyword::Compact),
    FormPlace::Keyword(Keyword::Cross),
];

pub const SHOW_FILES: &[FormPlace] = &[
    FormPlace::Keyword(Keyword::Show),
    FormPlace::Keyword(Keyword::Files),
];

impl Form {
    /// The places of the form, from the left.
    pub fn places(self) -> &'static [FormPlace]
        ensures { result.now ≡ places self }
    {
        match self {
            Form::Create => CREATE,
            Form::Insert => INSERT,
            Form::Delete => DELETE,
            Form::Select => SELECT,
            Form::Flush => FLUSH,
            Form::CompactSequence => COMPACT_SEQUENCE,
            Form::CompactUnsequence => COMPACT_UNSEQUENCE,
            Form::CompactCross => COMPACT_CROSS,
            Form::ShowFiles => SHOW_FILES,
        }
    }
}
