//! Tokens and the faults of texts.
use std::test::Fail;
use sym_lex::{Keyword, LexErr, LexFault, Symbol, Token, TokenKind, lex};

/// Texts with a fault, and the fault that stands first.
const FAULTS: [(&[u8], LexFault); 22] = [
    (b"$", LexFault::BadByte { at: 0 }),
    (b"a .b", LexFault::BadByte { at: 2 }),
    (b"a ! = b", LexFault::BadByte { at: 2 }),
    (b"a...", LexFault::BadByte { at: 3 }),
    (b"# \xff\"\n\xff", LexFault::BadByte { at: 5 }),
    (b"a & \"", LexFault::BadByte { at: 2 }),
    (b"1000000000001", LexFault::BadNumber { at: 0 }),
    (b"x = 0001000000000001;", LexFault::BadNumber { at: 4 }),
    (b"7 12x", LexFault::BadNumber { at: 2 }),
    (b"7_", LexFault::BadNumber { at: 0 }),
    (
        b"99999999999999999999999999999999999999999",
        LexFault::BadNumber { at: 0 },
    ),
    (
        b"a nnnnnnnnnnnnnnnnnnnnnnnnnnnnnnnnnnnnnnnnnnnnnnnnnnnnnnnnnnnnnnnnn b",
        LexFault::LongName { at: 2 },
    ),
    (
        b"enum_nnnnnnnnnnnnnnnnnnnnnnnnnnnnnnnnnnnnnnnnnnnnnnnnnnnnnnnnnnnn",
        LexFault::LongName { at: 0 },
    ),
    (b"n = \"a;", LexFault::BadText { at: 4 }),
    (b"n = \"a\nb\"", LexFault::BadText { at: 4 }),
    (b"\"a\\", LexFault::BadText { at: 0 }),
    (b"\"a\\\"", LexFault::BadText { at: 0 }),
    (b"\"a\\n\"", LexFault::BadText { at: 0 }),
    (b"\"a\" \"\\\n\"", LexFault::BadText { at: 4 }),
    (b"\"", LexFault::BadText { at: 0 }),
    (b"\"a\xff\"", LexFault::BadText { at: 0 }),
    (b"1x $", LexFault::BadNumber { at: 0 }),
];

#[test]
fn the_first_fault_is_answered_at_its_place(rt: HostRuntime) {
    for (bytes, fault) in FAULTS {
        let found = lex(rt.alloc(), bytes).err();
        assert_eq!(rt; found, Some(LexErr::Fault(fault)));
    }
}

/// What a test wants of a token: a name by its bytes.
#[derive(Drop)]
enum Wanted {
    Name(&'static [u8]),
    Number(i64),
    Str(&'static str),
    Word(Keyword),
    Sign(Symbol),
}

fn is_wanted(bytes: &[u8], token: &Token, wanted: &Wanted) -> bool {
    match (&token.kind, wanted) {
        (TokenKind::Name, Wanted::Name(name)) => {
            bytes.get(token.at as usize..token.end as usize) == Some(*name)
        }
        (TokenKind::Number(number), Wanted::Number(other)) => number == other,
        (TokenKind::Str(text), Wanted::Str(other)) => text.as_str() == *other,
        (TokenKind::Word(keyword), Wanted::Word(other)) => keyword == other,
        (TokenKind::Sign(symbol), Wanted::Sign(other)) => symbol == other,
        _ => false,
    }
}

const NAME_64: &[u8] = b"nnnnnnnnnnnnnnnnnnnnnnnnnnnnnnnnnnnnnnnnnnnnnnnnnnnnnnnnnnnnnnnn";

/// Texts of one token, alone and with a comment after it.
const TOKENS: [(&[u8], Wanted); 16] = [
    (b"x", Wanted::Name(b"x")),
    (b"_9aZ", Wanted::Name(b"_9aZ")),
    (b"enums", Wanted::Name(b"enums")),
    (b"Enum", Wanted::Name(b"Enum")),
    (NAME_64, Wanted::Name(NAME_64)),
    (b"enum", Wanted::Word(Keyword::Enum)),
    (b"clamp", Wanted::Word(Keyword::Clamp)),
    (b"0", Wanted::Number(0)),
    (b"0007", Wanted::Number(7)),
    (b"1000000000000", Wanted::Number(1_000_000_000_000)),
    (b"\"\"", Wanted::Str("")),
    (
        b"\"a # \\\"b\\\" \\\\ \xc3\xa4\"",
        Wanted::Str("a # \"b\" \\ ä"),
    ),
    (b"<=", Wanted::Sign(Symbol::LessEqual)),
    (b"<", Wanted::Sign(Symbol::Less)),
    (b"..", Wanted::Sign(Symbol::DotDot)),
    (b"!=", Wanted::Sign(Symbol::NotEqual)),
];

#[test]
fn each_token_is_read(rt: HostRuntime) -> Result<(), Fail> {
    for (bytes, wanted) in TOKENS {
        let mut text = Vec::from_slice(rt.alloc(), b" \t\r\n#\n")?;
        text.extend_from_slice(bytes)?;
        text.extend_from_slice(b"# \xff")?;
        assert!(rt; text.len() < 1000, "found {} bytes", text.len());
        let tokens = lex(rt.alloc(), &text)?;
        assert_eq!(rt; tokens.len(), 1);
        for token in &tokens {
            assert_eq!(rt; (token.at, token.end as usize), (6, 6 + bytes.len()));
            let as_wanted = is_wanted(&text, token, &wanted);
            assert!(rt; as_wanted, "found another token than that of {bytes:?}");
        }
    }
    Ok(())
}

/// A text of many tokens, and each token with its places.
const LINE: &[u8] = b"if n<=1..2{x=\"\\\\\";}# end";

const PARTS: [(Wanted, u32, u32); 12] = [
    (Wanted::Word(Keyword::If), 0, 2),
    (Wanted::Name(b"n"), 3, 4),
    (Wanted::Sign(Symbol::LessEqual), 4, 6),
    (Wanted::Number(1), 6, 7),
    (Wanted::Sign(Symbol::DotDot), 7, 9),
    (Wanted::Number(2), 9, 10),
    (Wanted::Sign(Symbol::OpenBrace), 10, 11),
    (Wanted::Name(b"x"), 11, 12),
    (Wanted::Sign(Symbol::Assign), 12, 13),
    (Wanted::Str("\\"), 13, 17),
    (Wanted::Sign(Symbol::Semicolon), 17, 18),
    (Wanted::Sign(Symbol::CloseBrace), 18, 19),
];

#[test]
fn tokens_stand_in_order(rt: HostRuntime) -> Result<(), LexErr> {
    let none = lex(rt.alloc(), b"")?;
    assert_eq!(rt; none.len(), 0);
    let tokens = lex(rt.alloc(), LINE)?;
    assert_eq!(rt; tokens.len(), 12);
    for (token, (wanted, at, end)) in tokens.iter().zip(PARTS) {
        assert_eq!(rt; (token.at, token.end), (at, end));
        let as_wanted = is_wanted(LINE, token, &wanted);
        assert!(rt; as_wanted, "found another token at {at} than is wanted");
        let same = token.copy(rt.alloc())? == *token;
        assert!(rt; same, "found another token at {at}, wanted a copy");
    }
    Ok(())
}

#[test]
fn errors_are_named(rt: HostRuntime) -> Result<(), Fail> {
    let fault = LexErr::Fault(LexFault::BadByte { at: 7 });
    let named = format!(in rt.alloc(); "{fault} {}", LexErr::NoMemory)?;
    assert_eq!(rt; named.as_str(), "Fault NoMemory");
    Ok(())
}
