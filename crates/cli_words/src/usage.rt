//! Words that ask for nothing, and the exit status.

ghost use Rattle.std.specs.Prelude.{◌≡◌};
ghost use Rattle.cli_lines.specs.Outcomes.{exit_status};
ghost use Rattle.cli_words.specs.Words.{usage_text};

use cli_lines::Ended;

/// Why the words ask for nothing, or that their help is asked for.
#[derive(Debug, Drop)]
pub enum Usage {
    /// What the user reads.
    Printed(String),
    OutOfMemory,
}

impl Usage {
    /// The text for the user, with its line feeds.
    pub fn text(&self) -> &str
        ensures { result.now ≡ usage_text self.now }
    {
        match self {
            Usage::Printed(text) => text.as_str(),
            Usage::OutOfMemory => "opaq: out of memory\n",
        }
    }
}

/// The exit status where the words are not understood.
const USAGE: u8 = 64;

/// The exit status of the program: 0 to 4 by how the run ended, 64 where the words asked for none.
pub fn exit_status(answer: &Result<Ended, Usage>) -> u8
    ensures { result ≡ exit_status answer.now }
{
    match answer {
        Ok(ended) => ended.status(),
        Err(_) => USAGE,
    }
}
