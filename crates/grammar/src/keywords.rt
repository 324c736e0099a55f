// The words of the language, which are no names.
ghost use Rattle.std.specs.Prelude.{◌≡◌, MatchOption, ◌≢◌};
ghost use Rattle.grammar.specs.Runs.{written};

#[derive(Clone, Copy, PartialEq, Eq, Debug)]
pub enum Keyword {
    Own,
    Cells,
    Cell,
    Field,
    Barrier,
    If,
    Else,
    End,
    While,
    Lane,
    Group,
    Lanes,
}

// The word of the language that these bytes are, if they are one. Kept a function and no TryFrom: a word that is none is a name, and no error.
#[tactic(auto, using(crate::proofs::Listed::reads_of, std::proofs::lemmas::List::same_lists, std::proofs::lemmas::List::places))]
pub fn keyword_of(word: &[u8]) -> Option<Keyword>
    ensures { MatchOption result ((k : Keyword) → word.now ≢ written k) (λ k. word.now ≡ written k) }
{
    match word {
        b"own" => Some(Keyword::Own),
        b"cells" => Some(Keyword::Cells),
        b"cell" => Some(Keyword::Cell),
        b"field" => Some(Keyword::Field),
        b"barrier" => Some(Keyword::Barrier),
        b"if" => Some(Keyword::If),
        b"else" => Some(Keyword::Else),
        b"end" => Some(Keyword::End),
        b"while" => Some(Keyword::While),
        b"lane" => Some(Keyword::Lane),
        b"group" => Some(Keyword::Group),
        b"lanes" => Some(Keyword::Lanes),
        _ => None,
    }
}
