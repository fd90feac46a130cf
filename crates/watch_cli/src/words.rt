//! The words of the command line.
ghost use Rattle.std.specs.Prelude.{◌≡◌, MatchOption, None, Some, if◌then◌else◌};
ghost use Rattle.std.specs.List.{list_all};
ghost use Rattle.flux_model.specs.Demo.{is_demo_number};
ghost use Rattle.flux_model.specs.Reading.{is_digit, digits_value};
ghost use Rattle.flux_model.specs.Verdict.{shape_of};
ghost use Rattle.watch_cli.specs.CommandWords.{seen_shape, texts};

/// What the words ask for, with the names of the files or the number.
#[derive(Clone, Copy)]
pub enum Shape<'a> {
    /// `watch GRAPH PATTERNS`: what each update changes.
    Watch { graph: &'a str, patterns: &'a str },
    /// `match GRAPH PATTERNS`: all embeddings.
    Match { graph: &'a str, patterns: &'a str },
    /// `save GRAPH`: the text of the graph.
    Save { graph: &'a str },
    /// `demo NUMBER`: the summary of a watch over the files of the number.
    Demo { number: u64 },
}

/// How many digits the number of a demonstration has at most.
const MOST_DIGITS: usize = 20;

/// The shape of the words, if they have one.
pub fn parse_shape(words: &[String]) -> Option<Shape<'_>>
    ensures { MatchOption result (shape_of (texts words.now) ≡ None) (λ shape. shape_of (texts words.now) ≡ Some (seen_shape shape)) }
{
    match words {
        [command, graph, patterns] if command.as_str() == "watch" => Some(Shape::Watch {
            graph: graph.as_str(),
            patterns: patterns.as_str(),
        }),
        [command, graph, patterns] if command.as_str() == "match" => Some(Shape::Match {
            graph: graph.as_str(),
            patterns: patterns.as_str(),
        }),
        [command, graph] if command.as_str() == "save" => Some(Shape::Save {
            graph: graph.as_str(),
        }),
        [command, number] if command.as_str() == "demo" => {
            let number = demo_number(number.as_str())?;
            Some(Shape::Demo { number })
        }
        _ => None,
    }
}

/// The number of a demonstration: 1 to 20 digits with a value below 2^64.
fn demo_number(word: &str) -> Option<u64>
    ensures { result ≡ (if is_demo_number word.now then Some (digits_value word.now) else None) }
{
    let digits = word.as_bytes();
    if digits.len() > MOST_DIGITS || !are_digits(digits) {
        return None;
    }
    word.parse().ok()
}

/// Whether each byte is a digit.
fn are_digits(bytes: &[u8]) -> bool
    ensures { result ≡ list_all is_digit bytes.now }
{
    bytes.iter().all(|byte| byte.is_ascii_digit())
}
