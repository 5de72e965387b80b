//! Words that can't be names.
ghost use Rattle.std.specs.Prelude.{◌≡◌};
ghost use Rattle.std.specs.List.{find};
ghost use Rattle.std.specs.Str.{bytes_eq};
ghost use Rattle.sym_lex.specs.Keywords.{keyword_of, keyword_text, keywords_of_length};

/// A word that can't be a name.
#[derive(Clone, Copy, PartialEq, Eq)]
pub enum Keyword {
    Enum,
    Field,
    From,
    Num,
    Word,
    Else,
    Group,
    State,
    Int,
    Nums,
    Words,
    Hold,
    Test,
    Update,
    Report,
    Let,
    Push,
    Keep,
    If,
    And,
    Or,
    Not,
    Is,
    Clamp,
}

/// The first of the keywords that is written as `word`.
fn first_written(keywords: &[Keyword], word: &[u8]) -> Option<Keyword>
    ensures { result ≡ find (λ k. bytes_eq (keyword_text k) word.now) keywords.now }
{
    keywords
        .iter()
        .copied()
        .find(|keyword| keyword.text().as_bytes() == word)
}

impl Keyword {
    /// The keywords of this many bytes.
    #[tactic(auto, unfolding(crate::specs::Keywords::keywords))]
    fn of_length(length: usize) -> &'static [Keyword]
        ensures { result.now ≡ keywords_of_length length }
    {
        match length {
            2 => &[Keyword::If, Keyword::Or, Keyword::Is],
            3 => &[
                Keyword::Num,
                Keyword::Int,
                Keyword::Let,
                Keyword::And,
                Keyword::Not,
            ],
            4 => &[
                Keyword::Enum,
                Keyword::From,
                Keyword::Word,
                Keyword::Else,
                Keyword::Nums,
                Keyword::Hold,
                Keyword::Test,
                Keyword::Push,
                Keyword::Keep,
            ],
            5 => &[
                Keyword::Field,
                Keyword::Group,
                Keyword::State,
                Keyword::Words,
                Keyword::Clamp,
            ],
            6 => &[Keyword::Update, Keyword::Report],
            _ => &[],
        }
    }

    /// The keyword as it is written.
    pub fn text(self) -> &'static str
        ensures { result.now ≡ keyword_text self }
    {
        match self {
            Keyword::Enum => "enum",
            Keyword::Field => "field",
            Keyword::From => "from",
            Keyword::Num => "num",
            Keyword::Word => "word",
            Keyword::Else => "else",
            Keyword::Group => "group",
            Keyword::State => "state",
            Keyword::Int => "int",
            Keyword::Nums => "nums",
            Keyword::Words => "words",
            Keyword::Hold => "hold",
            Keyword::Test => "test",
            Keyword::Update => "update",
            Keyword::Report => "report",
            Keyword::Let => "let",
            Keyword::Push => "push",
            Keyword::Keep => "keep",
            Keyword::If => "if",
            Keyword::And => "and",
            Keyword::Or => "or",
            Keyword::Not => "not",
            Keyword::Is => "is",
            Keyword::Clamp => "clamp",
        }
    }

    /// The keyword that is written as `word`, if there is one.
    pub(crate) fn of(word: &[u8]) -> Option<Keyword>
        ensures { result ≡ keyword_of word.now }
    {
        first_written(Keyword::of_length(word.len()), word)
    }
}
