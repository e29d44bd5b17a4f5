ghost use Rattle.std.specs.Prelude.{◌≡◌, ◌<◌, ◌≤◌, ◌⊎◌, ◌++◌, List, vec_len, IfOk, IfErr, IsOk, OnOk};
ghost use Rattle.pddl_lexer.specs.Brackets.{IsFaultOf, IsOneList};
ghost use Rattle.pddl_lexer.specs.Reading.{IsRead, Takes, Refuses, AddsTo};
ghost use Rattle.pddl_lexer.specs.Tokens.{AreTokens};
ghost use Rattle.pddl_lexer.specs.Trees.{IsTreeOf, depth_in, marks_at, marks_of_open};

use crate::faults::TreeFault;
use crate::token::{Token, TokenKind};
use std::alloc::{AllocError, Global};

/// How many lists may be open at once.
const DEPTH: usize = 64;

/// A list in brackets.
#[derive(Drop)]
#[cycle(tree)]
pub struct TreeList {
    /// The place of its opening bracket, counted from 0.
    pub at: u32,
    pub items: Vec<Item>,
}

/// What stands in a list.
#[derive(Drop)]
#[cycle(tree)]
pub enum Item {
    Word(Token),
    List(TreeList),
}

/// Adds the item last.
fn add(list: TreeList, item: Item) -> Result<TreeList, AllocError>
    ensures { IfOk result (λ l. marks_of_open l ≡ marks_of_open list ++ marks_at item) }
{
    let mut items = list.items;
    items.push(item)?;
    Ok(TreeList { at: list.at, items })
}

/// Adds the item to the innermost open list.
fn put(lists: &mut Vec<TreeList>, item: Item) -> Result<(), AllocError>
    requires { 0 < vec_len lists.old }
    ensures { OnOk result (AddsTo lists.old.items lists.new.items (marks_at item)) }
{
    if let Some(list) = lists.pop() {
        lists.push(add(list, item)?)?;
    }
    Ok(())
}

/// The lists behind the tokens read so far.
#[derive(Drop)]
struct Reading {
    /// The open lists, the outermost first.
    lists: Vec<TreeList>,
    /// The first list, once it is closed.
    done: Option<TreeList>,
}

impl Reading {
    fn open_list(&mut self, alloc: Global, token: Token) -> Result<(), TreeFault>
        requires { token.kind ≡ TokenKind.Open }
        ensures taken { OnOk result (Takes self.old token self.new) }
        ensures refused { IfErr result (Refuses self.old token) }
    {
        if self.lists.is_empty() && self.done.is_some() {
            return Err(TreeFault::Trailing(token.from));
        }
        if self.lists.len() == DEPTH {
            return Err(TreeFault::TooDeep(token.from));
        }
        self.lists.push(TreeList {
            at: token.from,
            items: Vec::new(alloc),
        })?;
        Ok(())
    }

    fn close_list(&mut self, token: Token) -> Result<(), TreeFault>
        requires { token.kind ≡ TokenKind.Close }
        ensures taken { OnOk result (Takes self.old token self.new) }
        ensures refused { IfErr result (Refuses self.old token) }
    {
        match self.lists.pop() {
            None => Err(TreeFault::Unopened(token.from)),
            Some(list) => {
                if self.lists.is_empty() {
                    self.done = Some(list);
                } else {
                    put(&mut self.lists, Item::List(list))?;
                }
                Ok(())
            }
        }
    }

    fn add_word(&mut self, token: Token) -> Result<(), TreeFault>
        requires { token.kind ≡ TokenKind.Word }
        ensures taken { OnOk result (Takes self.old token self.new) }
        ensures refused { IfErr result (Refuses self.old token) }
    {
        if self.lists.is_empty() {
            return Err(TreeFault::Trailing(token.from));
        }
        put(&mut self.lists, Item::Word(token))?;
        Ok(())
    }

    fn take(&mut self, alloc: Global, token: Token) -> Result<(), TreeFault>
        ensures taken { OnOk result (Takes self.old token self.new) }
        ensures refused { IfErr result (Refuses self.old token) }
    {
        match token.kind {
            TokenKind::Open => self.open_list(alloc, token),
            TokenKind::Close => self.close_list(token),
            TokenKind::Word => self.add_word(token),
        }
    }

    fn end(self) -> Result<TreeList, TreeFault>
        ensures done { IfOk result (λ l. (tokens : List Token) → IsRead tokens self
            → IsTreeOf tokens l) }
        ensures whole { IfOk result (λ _. (tokens : List Token) → IsRead tokens self
            → IsOneList tokens) }
        ensures fault { IfErr result (λ e. (tokens : List Token) → IsRead tokens self
            → IsFaultOf tokens e) }
    {
        let mut lists = self.lists;
        match lists.pop() {
            Some(list) => Err(TreeFault::Unclosed(list.at)),
            None => self.done.ok_or(TreeFault::Nothing),
        }
    }
}

/// Reads the tokens, one after the other.
fn read(alloc: Global, tokens: &[Token]) -> Result<TreeList, TreeFault>
    ensures found { IfOk result (IsTreeOf tokens.now) }
    ensures whole { IfOk result (λ _. IsOneList tokens.now) }
    ensures fault { IfErr result (λ e. (e ≡ TreeFault.OutOfMemory) ⊎ IsFaultOf tokens.now e) }
{
    let mut reading = Reading {
        lists: Vec::new(alloc),
        done: None,
    };
    for token in tokens {
        reading.take(alloc, *token)?;
    }
    reading.end()
}

/// The tree of the brackets of the text's tokens.
pub fn tree(alloc: Global, text: &[u8], tokens: &[Token]) -> Result<TreeList, TreeFault>
    requires { AreTokens text.now tokens.now }
    ensures found { IfOk result (IsTreeOf tokens.now) }
    ensures whole { IfOk result (λ _. IsOneList tokens.now) }
    ensures shallow { IfOk result (λ l. depth_in l ≤ 64) }
    ensures fault { IfErr result (λ e. (e ≡ TreeFault.OutOfMemory) ⊎ IsFaultOf tokens.now e) }

    // Only want of memory stands between the tokens and their tree, or their fault.
    ensures one_list { IsOneList tokens.now → (result ≡ Err TreeFault.OutOfMemory) ⊎ IsOk result }
    ensures of_tree { (l : TreeList) → IsTreeOf tokens.now l → depth_in l ≤ 64
        → (result ≡ Err TreeFault.OutOfMemory) ⊎ IsOk result }
    ensures first { (e : TreeFault) → IsFaultOf tokens.now e
        → (result ≡ Err TreeFault.OutOfMemory) ⊎ (result ≡ Err e) }
{
    read(alloc, tokens)
}
