//! `Code` and `Bad`: why a line is refused, and where a file's first such line is.
ghost use Rattle.std.specs.Prelude.{◌≡◌};

/// Why a line is refused.
#[derive(Clone, Copy, Debug, PartialEq, Eq)]
pub enum Code {
    /// The line is longer than a line may be.
    Long,
    /// The first word is none that the file has.
    Word,
    /// Lines of this form do not have this many words.
    Arity,
    /// A word in a number's place is no number.
    Number,
    /// A word in a label's or a name's place is none.
    Label,
    /// The vertex, triple, pattern name or pattern edge is there already.
    Exists,
    /// A vertex that is named is not there.
    NoVertex,
    /// The triple to remove is not there.
    Absent,
    /// The vertex to remove is an end of a triple.
    Busy,
    /// A limit would be passed.
    Full,
    /// The mode is neither `hom` nor `iso`.
    Mode,
    /// A vertex or an edge stands before the first pattern's name.
    NoName,
    /// The pattern vertex is not the next one.
    Order,
    /// The pattern has no vertex.
    Empty,
    /// The pattern is not connected.
    Apart,
}

/// The first refusal of a file: its line, counted from 1, and why.
#[derive(Clone, Copy, Debug, PartialEq, Eq)]
pub struct Bad {
    pub line: u64,
    pub code: Code,
}

impl Code {
    ghost use Rattle.flux_model.specs.Code.{code_number, code_word};

    /// The number of the code, from 1 to 15.
    pub fn number(self) -> u8
        ensures { result ≡ code_number self }
    {
        match self {
            Code::Long => 1,
            Code::Word => 2,
            Code::Arity => 3,
            Code::Number => 4,
            Code::Label => 5,
            Code::Exists => 6,
            Code::NoVertex => 7,
            Code::Absent => 8,
            Code::Busy => 9,
            Code::Full => 10,
            Code::Mode => 11,
            Code::NoName => 12,
            Code::Order => 13,
            Code::Empty => 14,
            Code::Apart => 15,
        }
    }

    /// The word by which reports and messages name the code.
    pub fn word(self) -> &'static str
        ensures { result.now ≡ code_word self }
    {
        match self {
            Code::Long => "long",
            Code::Word => "word",
            Code::Arity => "arity",
            Code::Number => "number",
            Code::Label => "label",
            Code::Exists => "exists",
            Code::NoVertex => "novertex",
            Code::Absent => "absent",
            Code::Busy => "busy",
            Code::Full => "full",
            Code::Mode => "mode",
            Code::NoName => "noname",
            Code::Order => "order",
            Code::Empty => "empty",
            Code::Apart => "apart",
        }
    }
}
