ghost use Rattle.std.specs.Prelude.{◌≡◌, ◌≢◌, IfSome, IfNone};
ghost use Rattle.litmus_test.specs.declared.keyword.Keyword.{Keyword};
ghost use Rattle.litmus_test.specs.Keyword.{keywords_by_name, name_of_keyword};
ghost use Rattle.litmus_text.specs.Table.{value_named};

use litmus_text::value_named;

/// The first word of a line that is no setting.
#[derive(Clone, Copy)]
pub(super) enum Keyword {
    Thread,
    Load,
    Store,
    Add,
    Cas,
    Settle,
    Evict,
    Forbid,
}

/// Each keyword, by its name.
static KEYWORDS: [(&[u8], Keyword); 8] = [
    (b"thread", Keyword::Thread),
    (b"load", Keyword::Load),
    (b"store", Keyword::Store),
    (b"add", Keyword::Add),
    (b"cas", Keyword::Cas),
    (b"settle", Keyword::Settle),
    (b"evict", Keyword::Evict),
    (b"forbid", Keyword::Forbid),
];

impl Keyword {
    /// Returns the keyword with this name.
    pub(super) fn named(name: &[u8]) -> Option<Keyword>
        ensures value { result ≡ value_named keywords_by_name name.now }
        ensures found { IfSome result (λ keyword. name.now ≡ name_of_keyword keyword) }
        ensures none { IfNone result ((keyword : Keyword) → name.now ≢ name_of_keyword keyword) }
    {
        value_named(&KEYWORDS, name)
    }
}
