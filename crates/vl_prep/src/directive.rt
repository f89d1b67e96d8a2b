ghost use Rattle.std.specs.Prelude.{◌≡◌, find};
ghost use Rattle.std.specs.Str.{bytes_eq};
ghost use Rattle.vl_prep.specs.Directive.{directive_text, directive_of};

/// A compiler directive that the preprocessor does (IEEE 1364-2005, clause 19). What else stands behind a backquote is
/// the use of a macro.
#[derive(Debug, Clone, Copy, PartialEq, Eq)]
pub(crate) enum Directive {
    Define,
    Undef,
    IfDef,
    IfNotDef,
    ElseIf,
    Else,
    EndIf,
    Include,
    TimeScale,
    DefaultNetType,
}

impl Directive {
    const ALL: [Directive; 10] = [
        Directive::Define,
        Directive::Undef,
        Directive::IfDef,
        Directive::IfNotDef,
        Directive::ElseIf,
        Directive::Else,
        Directive::EndIf,
        Directive::Include,
        Directive::TimeScale,
        Directive::DefaultNetType,
    ];

    /// The word behind the backquote.
    #[tactic(auto, unfolding(crate::specs::Directive::directive_text))]
    fn text(self) -> &'static [u8]
        ensures { result.now ≡ directive_text self }
    {
        match self {
            Directive::Define => b"define",
            Directive::Undef => b"undef",
            Directive::IfDef => b"ifdef",
            Directive::IfNotDef => b"ifndef",
            Directive::ElseIf => b"elsif",
            Directive::Else => b"else",
            Directive::EndIf => b"endif",
            Directive::Include => b"include",
            Directive::TimeScale => b"timescale",
            Directive::DefaultNetType => b"default_nettype",
        }
    }

    /// The directive with this word. None exactly where there is none.
    #[tactic(auto, unfolding(crate::specs::Directive::directive_of))]
    pub(crate) fn of_text(text: &[u8]) -> Option<Directive>
        ensures { result ≡ directive_of text.now }
    {
        directive_among(&Directive::ALL, text)
    }
}

fn directive_among(directives: &[Directive], text: &[u8]) -> Option<Directive>
    ensures { result ≡ find (λ d. bytes_eq (directive_text d) text.now) directives.now }
{
    directives
        .iter()
        .copied()
        .find(|directive| directive.text() == text)
}
