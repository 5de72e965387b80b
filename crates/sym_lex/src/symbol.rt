//! Tokens of one or two bytes that are no words, numbers or texts.
ghost use Rattle.std.specs.Prelude.{◌≡◌, nat_eq};
ghost use Rattle.std.specs.List.{find, starts_with};
ghost use Rattle.sym_lex.specs.Symbols.{symbol_of, symbol_text, symbols_beginning};

/// A token of one or two bytes that are neither letters, digits nor `_`.
#[derive(Clone, Copy, PartialEq, Eq)]
pub enum Symbol {
    OpenBrace,
    CloseBrace,
    OpenParen,
    CloseParen,
    OpenBracket,
    CloseBracket,
    Comma,
    Colon,
    Semicolon,
    Assign,
    Equal,
    NotEqual,
    Less,
    LessEqual,
    Greater,
    GreaterEqual,
    Plus,
    Minus,
    Star,
    Slash,
    Percent,
    DotDot,
}

/// The first of the symbols with which the text begins.
fn first_beginning(symbols: &[Symbol], text: &[u8]) -> Option<Symbol>
    ensures { result ≡ find (λ s. starts_with nat_eq text.now (symbol_text s)) symbols.now }
{
    symbols
        .iter()
        .copied()
        .find(|symbol| text.starts_with(symbol.text().as_bytes()))
}

impl Symbol {
    /// The symbols that begin with this byte, those of two bytes before those of one.
    #[tactic(auto, unfolding(crate::specs::Symbols::symbols))]
    fn beginning(first: u8) -> &'static [Symbol]
        ensures { result.now ≡ symbols_beginning first }
    {
        match first {
            b'=' => &[Symbol::Equal, Symbol::Assign],
            b'!' => &[Symbol::NotEqual],
            b'<' => &[Symbol::LessEqual, Symbol::Less],
            b'>' => &[Symbol::GreaterEqual, Symbol::Greater],
            b'.' => &[Symbol::DotDot],
            b'{' => &[Symbol::OpenBrace],
            b'}' => &[Symbol::CloseBrace],
            b'(' => &[Symbol::OpenParen],
            b')' => &[Symbol::CloseParen],
            b'[' => &[Symbol::OpenBracket],
            b']' => &[Symbol::CloseBracket],
            b',' => &[Symbol::Comma],
            b':' => &[Symbol::Colon],
            b';' => &[Symbol::Semicolon],
            b'+' => &[Symbol::Plus],
            b'-' => &[Symbol::Minus],
            b'*' => &[Symbol::Star],
            b'/' => &[Symbol::Slash],
            b'%' => &[Symbol::Percent],
            _ => &[],
        }
    }

    /// The symbol as it is written.
    pub fn text(self) -> &'static str
        ensures { result.now ≡ symbol_text self }
    {
        match self {
            Symbol::OpenBrace => "{",
            Symbol::CloseBrace => "}",
            Symbol::OpenParen => "(",
            Symbol::CloseParen => ")",
            Symbol::OpenBracket => "[",
            Symbol::CloseBracket => "]",
            Symbol::Comma => ",",
            Symbol::Colon => ":",
            Symbol::Semicolon => ";",
            Symbol::Assign => "=",
            Symbol::Equal => "==",
            Symbol::NotEqual => "!=",
            Symbol::Less => "<",
            Symbol::LessEqual => "<=",
            Symbol::Greater => ">",
            Symbol::GreaterEqual => ">=",
            Symbol::Plus => "+",
            Symbol::Minus => "-",
            Symbol::Star => "*",
            Symbol::Slash => "/",
            Symbol::Percent => "%",
            Symbol::DotDot => "..",
        }
    }

    /// The longest symbol with which the text begins, if it begins with one.
    #[tactic(auto, using(crate::proofs::Signs::symbol_by_nothing))]
    pub(crate) fn of(text: &[u8]) -> Option<Symbol>
        ensures { result ≡ symbol_of text.now }
    {
        match text {
            [] => None,
            [first, ..] => first_beginning(Symbol::beginning(*first), text),
        }
    }
}
