/// What the program is asked for. The table of the commands is `name`, `required` and `optional`.
#[derive(Clone, Copy, Debug, PartialEq, Eq)]
pub enum Command {
    /// Prints the cost of each goal with an optimal plan.
    Cost,
    /// Prints the costs, and how long two goals can't be told apart.
    Wcd,
    /// Prints the domain and the problem in their canonical text.
    Show,
}

/// An option of a command, each with one value.
#[derive(Clone, Copy, Debug, PartialEq, Eq)]
pub enum OptionName {
    Domain,
    Problem,
    Goals,
    MaxStates,
}

/// All commands.
const COMMANDS: [Command; 3] = [Command::Cost, Command::Wcd, Command::Show];

impl Command {
    ghost use Rattle.std.specs.Prelude.{◌≡◌, ◌≢◌, MatchOption};
    ghost use Rattle.command_words.specs.Commands.{command_text, required_of, optional_of};

    /// The command whose word this is.
    pub(crate) fn named(word: &str) -> Option<Command>
        ensures { MatchOption result ((command : Command) → word.now ≢ command_text command)
            (λ command. word.now ≡ command_text command) }
    {
        COMMANDS
            .iter()
            .copied()
            .find(|command| command.name() == word)
    }

    /// The word of the command.
    pub(crate) fn name(self) -> &'static str
        ensures { result.now ≡ command_text self }
    {
        match self {
            Command::Cost => "cost",
            Command::Wcd => "wcd",
            Command::Show => "show",
        }
    }

    /// The options that the command must have, in their order.
    pub(crate) fn required(self) -> &'static [OptionName]
        ensures { result.now ≡ required_of self }
    {
        match self {
            Command::Cost | Command::Wcd => {
                &[OptionName::Domain, OptionName::Problem, OptionName::Goals]
            }
            Command::Show => &[OptionName::Domain, OptionName::Problem],
        }
    }

    /// The options that the command may have, in their order.
    pub(crate) fn optional(self) -> &'static [OptionName]
        ensures { result.now ≡ optional_of self }
    {
        match self {
            Command::Cost | Command::Wcd => &[OptionName::MaxStates],
            Command::Show => &[],
        }
    }
}

impl OptionName {
    ghost use Rattle.std.specs.Prelude.{◌≡◌};
    ghost use Rattle.command_words.specs.Commands.{option_text, range_of};

    /// What the words call the option, behind two hyphens.
    pub fn name(self) -> &'static str
        ensures { result.now ≡ option_text self }
    {
        match self {
            OptionName::Domain => "domain",
            OptionName::Problem => "problem",
            OptionName::Goals => "goals",
            OptionName::MaxStates => "max-states",
        }
    }

    /// The least and the greatest value of an option whose value is a number.
    pub(crate) fn range(self) -> Option<(u32, u32)>
        ensures { result ≡ range_of self }
    {
        match self {
            OptionName::Domain | OptionName::Problem | OptionName::Goals => None,
            OptionName::MaxStates => Some((1, 200_000)),
        }
    }
}
