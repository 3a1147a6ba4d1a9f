// Tokens of texts, and the places of bytes.
use bddl_lexer::{LexFault, Token, TokenKind, lex, place_of};
use bddl_model::Place;
use std::test::Fail;

#[test]
fn reads_each_kind(rt: HostRuntime) -> Result<(), Fail> {
    for (text, kind) in [
        (b"(".as_slice(), TokenKind::Left),
        (b")", TokenKind::Right),
        (b",", TokenKind::Comma),
        (b"+", TokenKind::Plus),
        (b"-", TokenKind::Minus),
        (b"?x", TokenKind::VarX),
        (b"?y", TokenKind::VarY),
        (b"#boardsize", TokenKind::Hash),
        (b":p-1_Z", TokenKind::Colon),
        (b"open", TokenKind::Name),
        (b"abcdefghijklmnopqrstuvwxyzABCDEF", TokenKind::Name),
        (b"#abcdefghijklmnopqrstuvwxyzABCDEF", TokenKind::Hash),
        (b"0", TokenKind::Number),
        (b"012345678", TokenKind::Number),
    ] {
        assert!(rt; text.len() <= 33);
        let tokens = lex(rt.alloc(), text)?;
        let end = text.len() as u32;
        assert_eq!(rt;
            tokens.as_slice(),
            [Token {
                kind,
                start: 0,
                end
            }]
            .as_slice()
        );
    }
    Ok(())
}

#[test]
fn skips_comments_and_white_space(rt: HostRuntime) -> Result<(), Fail> {
    let tokens = lex(rt.alloc(), b"(?x,12)\r\n;note\r(\n-open\t;end")?;
    let wanted = [
        (TokenKind::Left, 0, 1),
        (TokenKind::VarX, 1, 3),
        (TokenKind::Comma, 3, 4),
        (TokenKind::Number, 4, 6),
        (TokenKind::Right, 6, 7),
        (TokenKind::Minus, 17, 18),
        (TokenKind::Name, 18, 22),
    ]
    .map(|(kind, start, end)| Token { kind, start, end });
    assert_eq!(rt; tokens.as_slice(), wanted.as_slice());
    Ok(())
}

#[test]
fn names_the_first_fault(rt: HostRuntime) {
    for (text, fault) in [
        (b"a .".as_slice(), LexFault::BadByte { at: 2 }),
        (b";x\r\n!", LexFault::BadByte { at: 4 }),
        (b"(?z", LexFault::BadByte { at: 1 }),
        (b"?", LexFault::BadByte { at: 0 }),
        (b"#1", LexFault::BadByte { at: 0 }),
        (b"a : b", LexFault::BadByte { at: 2 }),
        (b"_", LexFault::BadByte { at: 0 }),
        (b"\xc3", LexFault::BadByte { at: 0 }),
        (
            b" abcdefghijklmnopqrstuvwxyzABCDEFG !",
            LexFault::NameTooLong { at: 1 },
        ),
        (
            b":abcdefghijklmnopqrstuvwxyzABCDEFG",
            LexFault::NameTooLong { at: 0 },
        ),
        (b"1 0123456789", LexFault::NumberTooLong { at: 2 }),
    ] {
        assert!(rt; text.len() <= 40);
        assert_eq!(rt; lex(rt.alloc(), text).err(), Some(fault));
    }
}

#[test]
fn a_place_counts_line_feeds_and_the_bytes_behind_them(rt: HostRuntime) {
    let text = b"ab\nc\r\n\nd";
    for (at, line, column) in [
        (0, 1, 1),
        (1, 1, 2),
        (2, 1, 3),
        (3, 2, 1),
        (5, 2, 3),
        (6, 3, 1),
        (7, 4, 1),
        (8, 4, 2),
    ] {
        assert!(rt; at <= 8);
        assert_eq!(rt; place_of(text, at), Place { line, column }, "at {at}");
    }
}
