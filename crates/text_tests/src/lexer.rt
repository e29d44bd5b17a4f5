use crate::parts::{put_number, put_numbers};
use pddl_lexer::{Item, LexFault, TokenKind, TreeList, tokens, tree};
use std::alloc::Global;
use std::fmt::Write;
use std::test::Fail;

const DEPTH_64: &[u8] =
    b"(((((((((((((((((((((((((((((((((((((((((((((((((((((((((((((((())))))))))))))))))))))))))))))))))))))))))))))))))))))))))))))))";

const OPEN_64: &[u8] = b"((((((((((((((((((((((((((((((((((((((((((((((((((((((((((((((((";

const OPEN_65: &[u8] = b"(((((((((((((((((((((((((((((((((((((((((((((((((((((((((((((((((";

/// The tokens of a text, each with the places where it begins and ends; or the fault.
fn tokens_of(alloc: Global, text: &[u8]) -> Result<String, Fail> {
    if text.len() > 1 << 20 {
        return Err("too long".into());
    }
    let mut out = String::new(alloc);
    match tokens(alloc, text) {
        Err(fault) => write!(out, "{fault}")?,
        Ok(found) => {
            for token in &found {
                let kind = match token.kind {
                    TokenKind::Open => "(",
                    TokenKind::Close => ")",
                    TokenKind::Word => "word",
                };
                put_numbers(&mut out, kind, &[token.from, token.to], ";")?;
            }
        }
    }
    Ok(out)
}

/// Texts, and their tokens.
const TOKENS: &[(&[u8], &str)] = &[
    (b"", ""),
    (b"\t\r\n ", ""),
    (b"; alone (a) \x7f\xff", ""),
    (b"(ab() )", "( 0 1;word 1 3;( 3 4;) 4 5;) 6 7;"),
    (b"a;(b)\x80\r;)~\n\n( c!?~", "word 0 1;( 12 13;word 14 18;"),
    (b"?x", "word 0 2;"),
];

#[test]
fn texts_have_their_tokens(rt: HostRuntime) -> Result<(), Fail> {
    for (text, want) in TOKENS {
        assert_eq!(rt; tokens_of(rt.alloc(), text)?.as_str(), *want);
    }
    Ok(())
}

#[test]
fn longest_text_has_its_token(rt: HostRuntime) -> Result<(), Fail> {
    let text = vec![in rt.alloc(); b'a'; 1 << 20]?;
    assert_eq!(rt; tokens_of(rt.alloc(), &text)?.as_str(), "word 0 1048576;");
    Ok(())
}

/// Texts with bytes that no text has, and the first.
const BAD_BYTES: &[(&[u8], &str)] = &[
    (b"\x7f", "byte 0: bad byte"),
    (b"ab\x80\xff", "byte 2: bad byte"),
    (b"(a ;\xe9\n \xe9 \xff)", "byte 7: bad byte"),
    (b"a\x0bb", "byte 1: bad byte"),
    (b"; c\r\xff\n\x00", "byte 6: bad byte"),
    (b"(\x1f)", "byte 1: bad byte"),
];

#[test]
fn first_bad_byte_outside_comments_is_named(rt: HostRuntime) -> Result<(), Fail> {
    for (text, want) in BAD_BYTES {
        assert_eq!(rt; tokens_of(rt.alloc(), text)?.as_str(), *want);
    }
    Ok(())
}

/// A list's place, and the number of its items.
fn put_list(out: &mut String, list: &TreeList) -> Result<(), Fail> {
    put_number(out, " list ", list.at)?;
    out.push_str(" of ")?;
    write!(out, "{}", list.items.len())?;
    out.push_str(";")?;
    Ok(())
}

/// The place of the list of a text, and its items: a word with the places where it begins and ends, a
/// list with its place and the number of its items; or the fault.
fn tree_of(alloc: Global, text: &[u8]) -> Result<String, Fail> {
    if text.len() > 1 << 20 {
        return Err("too long".into());
    }
    let found = tokens(alloc, text)?;
    let mut out = String::new(alloc);
    match tree(alloc, text, &found) {
        Err(fault) => write!(out, "{fault}")?,
        Ok(list) => {
            put_number(&mut out, "", list.at)?;
            out.push_str(":")?;
            for item in &list.items {
                match item {
                    Item::Word(word) => {
                        put_numbers(&mut out, " word", &[word.from, word.to], ";")?;
                    }
                    Item::List(list) => put_list(&mut out, list)?,
                }
            }
        }
    }
    Ok(out)
}

/// Texts, and the tree of their brackets or the fault.
const BRACKETS: &[(&[u8], &str)] = &[
    (b"", "empty"),
    (b"; (a)", "empty"),
    (b"()", "0:"),
    (b"(a (b) ())", "0: word 1 2; list 3 of 1; list 7 of 0;"),
    (b"(a (b c) ())", "0: word 1 2; list 3 of 2; list 9 of 0;"),
    (DEPTH_64, "0: list 1 of 1;"),
    (OPEN_64, "byte 63: unclosed"),
    (OPEN_65, "byte 64: too deep"),
    (b"a", "byte 0: trailing"),
    (b" a (", "byte 1: trailing"),
    (b"() a )", "byte 3: trailing"),
    (b"() (", "byte 3: trailing"),
    (b" )", "byte 1: unopened"),
    (b"(a) ) b", "byte 4: unopened"),
    (b"(a (b) (c", "byte 7: unclosed"),
    (b"(a (b) (c)", "byte 0: unclosed"),
    (b"((a) (b (c) ; ))", "byte 5: unclosed"),
    (b"(", "byte 0: unclosed"),
];

#[test]
fn brackets_have_their_tree_or_fault(rt: HostRuntime) -> Result<(), Fail> {
    for (text, want) in BRACKETS {
        assert_eq!(rt; tree_of(rt.alloc(), text)?.as_str(), *want);
    }
    Ok(())
}

#[test]
fn want_of_memory_is_printed(rt: HostRuntime) -> Result<(), Fail> {
    let found = format!(in rt.alloc(); "{}", LexFault::OutOfMemory)?;
    assert_eq!(rt; found.as_str(), "out of memory");
    Ok(())
}
