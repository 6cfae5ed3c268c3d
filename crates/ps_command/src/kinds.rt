//! The words of faults, as their lines print them: a variant's words in small letters, joined by `-`.

ghost use Rattle.std.specs.Prelude.{◌≡◌};
ghost use Rattle.ps_command.specs.Lines.{syntax_word, module_word, form_word, survive_word, position_word};

use ps_base::{FormKind, ModuleKind, Position, SurviveKind, SyntaxKind};

#[tactic(auto, unfolding(crate::specs::Lines::syntax_word))]
pub fn syntax_word_of(kind: SyntaxKind) -> &'static [u8]
    ensures { result.now ≡ syntax_word kind }
{
    match kind {
        SyntaxKind::BadToken => b"bad-token",
        SyntaxKind::Unclosed => b"unclosed",
        SyntaxKind::StrayClose => b"stray-close",
        SyntaxKind::FloatLiteral => b"float-literal",
        SyntaxKind::WideLiteral => b"wide-literal",
        SyntaxKind::BadCharacter => b"bad-character",
        SyntaxKind::BadEscape => b"bad-escape",
        SyntaxKind::BadDot => b"bad-dot",
        SyntaxKind::TooDeep => b"too-deep",
    }
}

#[tactic(auto, unfolding(crate::specs::Lines::module_word))]
pub fn module_word_of(kind: ModuleKind) -> &'static [u8]
    ensures { result.now ≡ module_word kind }
{
    match kind {
        ModuleKind::UnknownStructure => b"unknown-structure",
        ModuleKind::UnknownInterface => b"unknown-interface",
        ModuleKind::DefinedTwice => b"defined-twice",
        ModuleKind::Circle => b"circle",
        ModuleKind::MissingFile => b"missing-file",
        ModuleKind::NoMain => b"no-main",
        ModuleKind::TwoOpened => b"two-opened",
        ModuleKind::BadClause => b"bad-clause",
    }
}

#[tactic(auto, unfolding(crate::specs::Lines::form_word))]
pub fn form_word_of(kind: FormKind) -> &'static [u8]
    ensures { result.now ≡ form_word kind }
{
    match kind {
        FormKind::BadForm => b"bad-form",
        FormKind::Unbound => b"unbound",
        FormKind::Arity => b"arity",
        FormKind::LetrecValue => b"letrec-value",
        FormKind::LocalSet => b"local-set",
        FormKind::NoRule => b"no-rule",
        FormKind::BadRules => b"bad-rules",
        FormKind::Uneven => b"uneven",
        FormKind::NameTwice => b"name-twice",
        FormKind::ExportUndefined => b"export-undefined",
        FormKind::TooDeep => b"too-deep",
    }
}

#[tactic(auto, unfolding(crate::specs::Lines::survive_word))]
pub fn survive_word_of(kind: SurviveKind) -> &'static [u8]
    ensures { result.now ≡ survive_word kind }
{
    match kind {
        SurviveKind::CompileOnly => b"compile-only",
        SurviveKind::ProcedureAssigned => b"procedure-assigned",
        SurviveKind::MainMissing => b"main-missing",
    }
}

#[tactic(auto, unfolding(crate::specs::Lines::position_word))]
pub fn position_word_of(position: Position) -> &'static [u8]
    ensures { result.now ≡ position_word position }
{
    match position {
        Position::Branch => b"branch",
        Position::Primitive => b"primitive",
        Position::Assigned => b"assigned",
        Position::Ignored => b"ignored",
    }
}
