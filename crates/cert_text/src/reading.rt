ghost use Rattle.std.specs.Prelude.{◌≡◌, IfOk};
ghost use Rattle.std.specs.Option.{option_map};
ghost use Rattle.cert_text.specs.Values.{plain};
ghost use Rattle.cert_text.specs.Reading.{words, words_left, line_of, read_words, IsReading};

use crate::keyword::Keyword;
use crate::kinds::{
    ended, read_branch, read_counts, read_cuts, read_design, read_goal, read_head, read_leaf,
    read_live, read_named, read_plan, read_prefix, read_remove, read_set, read_steps, read_tree,
    read_verdict, read_wcd,
};
use crate::line::{BadText, CertLine};
use crate::words::{first_word, holds_over_range};
use std::alloc::{AllocError, Global};

/// The line of these bytes, which are without its line feed.
pub(crate) fn read_line(alloc: Global, line: &[u8]) -> Result<CertLine, BadText>
    ensures { IsReading line.now result }
{
    match read_words(alloc, line)? {
        None => Err(BadText::OfNoKind),
        Some(_) if holds_over_range(line) => Err(BadText::OverRange),
        Some(found) => Ok(found),
    }
}

/// The line of these bytes, where they are of a kind. A number over the range is the greatest of it.
fn read_words(alloc: Global, line: &[u8]) -> Result<Option<CertLine>, AllocError>
    ensures { IfOk result (λ found. option_map plain found ≡ read_words (words line.now)) }
{
    let (word, rest) = first_word(line);
    match Keyword::named(word) {
        Some(keyword) => read_behind(alloc, keyword, rest),
        None => Ok(None),
    }
}

/// The line that begins with this keyword.
fn read_behind(alloc: Global, keyword: Keyword, rest: &[u8]) -> Result<Option<CertLine>, AllocError>
    ensures { IfOk result (λ found. option_map plain found ≡ line_of keyword (words_left rest.now)) }
{
    match keyword {
        Keyword::Grd => Ok(read_head(rest)),
        Keyword::Task => Ok(read_counts(rest)),
        Keyword::Goal => Ok(read_goal(rest)),
        Keyword::Plan => read_plan(alloc, rest),
        Keyword::Table => Ok(ended(rest, CertLine::Table)),
        Keyword::Cuts => read_cuts(alloc, rest),
        Keyword::Set => read_set(alloc, rest),
        Keyword::Steps => read_steps(alloc, rest),
        Keyword::End => Ok(ended(rest, CertLine::End)),
        Keyword::Verdict => Ok(read_verdict(rest)),
        Keyword::Wcd => Ok(read_wcd(rest)),
        Keyword::Prefix => read_prefix(alloc, rest),
        Keyword::Live => read_live(alloc, rest),
        Keyword::Design => Ok(read_design(rest)),
        Keyword::Remove => read_remove(alloc, rest),
        Keyword::Named => read_named(alloc, rest),
        Keyword::Tree => Ok(read_tree(rest)),
        Keyword::Branch => Ok(read_branch(rest)),
        Keyword::Leaf => Ok(read_leaf(rest)),
        Keyword::Done => Ok(ended(rest, CertLine::Done)),
    }
}
