/// The word with which a line begins.
#[derive(Clone, Copy, Debug, PartialEq, Eq)]
pub(crate) enum Keyword {
    Grd,
    Task,
    Goal,
    Plan,
    Table,
    Cuts,
    Set,
    Steps,
    End,
    Verdict,
    Wcd,
    Prefix,
    Live,
    Design,
    Remove,
    Named,
    Tree,
    Branch,
    Leaf,
    Done,
}

/// All of them.
const KEYWORDS: [Keyword; 20] = [
    Keyword::Grd,
    Keyword::Task,
    Keyword::Goal,
    Keyword::Plan,
    Keyword::Table,
    Keyword::Cuts,
    Keyword::Set,
    Keyword::Steps,
    Keyword::End,
    Keyword::Verdict,
    Keyword::Wcd,
    Keyword::Prefix,
    Keyword::Live,
    Keyword::Design,
    Keyword::Remove,
    Keyword::Named,
    Keyword::Tree,
    Keyword::Branch,
    Keyword::Leaf,
    Keyword::Done,
];

impl Keyword {
    ghost use Rattle.std.specs.Prelude.{◌≡◌};
    ghost use Rattle.cert_text.specs.Values.{keyword_text};
    ghost use Rattle.cert_text.specs.Reading.{keyword_of};

    /// The keyword that is this word.
    pub(crate) fn named(word: &[u8]) -> Option<Keyword>
        ensures { result ≡ keyword_of word.now }
    {
        KEYWORDS
            .iter()
            .copied()
            .find(|keyword| word == keyword.text().as_bytes())
    }

    pub(crate) fn text(self) -> &'static str
        ensures { result.now ≡ keyword_text self }
    {
        match self {
            Keyword::Grd => "grd",
            Keyword::Task => "task",
            Keyword::Goal => "goal",
            Keyword::Plan => "plan",
            Keyword::Table => "table",
            Keyword::Cuts => "cuts",
            Keyword::Set => "set",
            Keyword::Steps => "steps",
            Keyword::End => "end",
            Keyword::Verdict => "verdict",
            Keyword::Wcd => "wcd",
            Keyword::Prefix => "prefix",
            Keyword::Live => "live",
            Keyword::Design => "design",
            Keyword::Remove => "remove",
            Keyword::Named => "named",
            Keyword::Tree => "tree",
            Keyword::Branch => "branch",
            Keyword::Leaf => "leaf",
            Keyword::Done => "done",
        }
    }
}
