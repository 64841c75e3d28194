ghost use Rattle.std.specs.Prelude.{◌≡◌, ◌≢◌, IfSome, IfNone};
ghost use Rattle.litmus_text.specs.Table.{value_named};
ghost use Rattle.program_text.specs.declared.keyword.Keyword.{Keyword};
ghost use Rattle.program_text.specs.Keyword.{keywords_by_name, name_of_keyword};

use litmus_text::value_named;

/// The first word of a line that doesn't configure.
#[derive(Clone, Copy)]
pub(super) enum Keyword {
    Outstanding,
    Pace,
    Core,
    Load,
    Store,
    Add,
    Cas,
    Settle,
    Repeat,
    End,
}

/// Each keyword, by its name.
static KEYWORDS: [(&[u8], Keyword); 10] = [
    (b"outstanding", Keyword::Outstanding),
    (b"pace", Keyword::Pace),
    (b"core", Keyword::Core),
    (b"load", Keyword::Load),
    (b"store", Keyword::Store),
    (b"add", Keyword::Add),
    (b"cas", Keyword::Cas),
    (b"settle", Keyword::Settle),
    (b"repeat", Keyword::Repeat),
    (b"end", Keyword::End),
];

impl Keyword {
    /// Returns the keyword with this name.
    pub(super) fn named(name: &[u8]) -> Option<Keyword>
        ensures value { result ≡ value_named keywords_by_name name.now }
        ensures found { IfSome result (λ keyword. name.now ≡ name_of_keyword keyword) }
        ensures none { IfNone result ((keyword : Keyword) → name.now ≢ name_of_keyword keyword) }
    {
        value_named(&KEYWORDS, name)
    }
}
