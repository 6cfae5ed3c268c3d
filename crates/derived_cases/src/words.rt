//! Which special form a name is.

use ps_base::Core;

/// The special form of this name.
pub fn core_of(name: &[u8]) -> Option<Core> {
    match name {
        b"define" => Some(Core::Define),
        b"define-syntax" => Some(Core::DefineSyntax),
        b"define-record-type" => Some(Core::DefineRecordType),
        b"lambda" => Some(Core::Lambda),
        b"if" => Some(Core::If),
        b"let" => Some(Core::Let),
        b"let*" => Some(Core::LetStar),
        b"letrec" => Some(Core::Letrec),
        b"begin" => Some(Core::Begin),
        b"set!" => Some(Core::Set),
        b"quote" => Some(Core::Quote),
        b"cond" => Some(Core::Cond),
        b"case" => Some(Core::Case),
        b"and" => Some(Core::And),
        b"or" => Some(Core::Or),
        b"do" => Some(Core::Do),
        b"goto" => Some(Core::Goto),
        b"let-syntax" => Some(Core::LetSyntax),
        b"letrec-syntax" => Some(Core::LetrecSyntax),
        _ => None,
    }
}
