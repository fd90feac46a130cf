//! The statuses: the exit status of each, its line for standard error, and that of a file whose reading stopped.
ghost use Rattle.std.specs.Prelude.{◌≡◌, ◌+◌, ◌≤◌, length};
ghost use Rattle.std.specs.Fmt.{decimal};
ghost use Rattle.watch_cli.specs.Status.{refusal_text, status_text, status_number};
ghost use Rattle.watch_cli.specs.EarlyEnds.{status_of, IsEarly};

use arrayvec::ArrayString;
use file_reading::Stop;
use flux_model::{Bad, Code};

/// How a run ends.
#[derive(Clone, Copy, Debug, PartialEq, Eq)]
pub enum Status {
    /// Every input was read to its end, and all was written.
    Done,
    /// The words have none of the shapes of the command line.
    Usage,
    /// The graph file is refused first at this line, with this code.
    BadGraph { line: u64, code: Code },
    /// The pattern file is refused first at this line, with this code.
    BadPatterns { line: u64, code: Code },
    /// A file that the words name is not there.
    NoFile,
    /// A read failed.
    ReadFault,
    /// A write failed.
    WriteFault,
    /// Memory was refused.
    Memory,
    /// An input has more bytes than the limit.
    TooMuch,
}

/// The files that the words name.
#[derive(Clone, Copy)]
pub enum InputFile {
    Graph,
    Patterns,
}

impl Status {
    /// How a run ends where the reading of this file stopped.
    pub(crate) fn of(file: InputFile, stop: Stop) -> Status
        ensures status { result ≡ status_of file stop }
        ensures early { IsEarly result }
    {
        match stop {
            Stop::Memory => Status::Memory,
            Stop::Read => Status::ReadFault,
            Stop::NoFile => Status::NoFile,
            Stop::TooMuch => Status::TooMuch,
            Stop::Bad(Bad { line, code }) => match file {
                InputFile::Graph => Status::BadGraph { line, code },
                InputFile::Patterns => Status::BadPatterns { line, code },
            },
        }
    }

    /// The exit status of the program.
    pub fn number(self) -> u8
        ensures { result ≡ status_number self }
    {
        match self {
            Status::Done => 0,
            Status::NoFile => 1,
            Status::Usage => 2,
            Status::BadGraph { .. } => 3,
            Status::BadPatterns { .. } => 4,
            Status::ReadFault => 5,
            Status::WriteFault => 6,
            Status::Memory => 7,
            Status::TooMuch => 8,
        }
    }

    /// The line for standard error, which is empty for `Done`. It takes no memory.
    pub fn text(self) -> ArrayString<64>
        ensures { result.bytes ≡ status_text self }
    {
        match self {
            Status::Done => ArrayString::new(),
            Status::Usage => text_of("turboflux: unknown command or wrong arguments\n"),
            Status::BadGraph { line, code } => refusal("graph", line, code),
            Status::BadPatterns { line, code } => refusal("patterns", line, code),
            Status::NoFile => text_of("turboflux: no such file\n"),
            Status::ReadFault => text_of("turboflux: read fault\n"),
            Status::WriteFault => text_of("turboflux: write fault\n"),
            Status::Memory => text_of("turboflux: out of memory\n"),
            Status::TooMuch => text_of("turboflux: input too large\n"),
        }
    }
}

/// A short text, in place.
fn text_of(text: &str) -> ArrayString<64>
    requires { length text.now ≤ 64 }
    ensures { result.bytes ≡ text.now }
{
    let mut line = ArrayString::new();
    line.push_str(text);
    line
}

/// Where a file is refused, and why.
fn refusal(file: &str, line: u64, code: Code) -> ArrayString<64>
    requires { length file.now ≤ 8 }
    ensures { result.bytes ≡ refusal_text file.now line code }
{
    let mut digits = itoa::Buffer::new();
    let digits = digits.format(line);
    let mut text = text_of("turboflux: ");
    text.push_str(file);
    text.push_str(" line ");
    text.push_str(digits);
    text.push_str(": ");
    text.push_str(code.word());
    text.push_str("\n");
    text
}
