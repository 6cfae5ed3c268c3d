//! The rules of a `syntax-rules` form.

ghost use Rattle.std.specs.Prelude.{◌≡◌, IfOk, Some, None, map, codes};
ghost use Rattle.std.specs.Option.{option_map, option_and_then};
ghost use Rattle.ps_pattern.specs.Reading.{row_of, dotted_read, behind_first};
ghost use Rattle.ps_pattern.specs.Compiling.{whole_of, rule_with, rule_of, rules_of, compiled, Compiled, is_keyword as keyword_spec, ident_at as ident_spec};
ghost use Rattle.ps_base.specs.Names.{number_of};

use crate::identifiers::is_named;
use crate::keys::{Keys, table_of};
use crate::literals::{ident_at, list_parts, literals_of};
use crate::reading::{behind_ignored, dotted_of_row, list_of, read_pattern, read_row};
use crate::syntax::{Syntax, SyntaxNode};
use crate::template_reading::read_template;
use crate::transcription::{PatternFault, Rule, Rules};
use crate::variables::{Read, RowRead, Var};
use ps_base::{Items, Names};
use std::alloc::{AllocError, Global};

/// The rules of a `syntax-rules` form.
///
/// # Errors
///
/// `BadRules` exactly where the form is none, and `NoMemory` where memory ran out.
pub fn compile_rules(alloc: Global, form: &Syntax, names: &Names) -> Result<Rules, PatternFault>
    ensures { Compiled (compiled (number_of names.now (codes "...")) (number_of names.now (codes "syntax-rules")) form.now) result }
{
    let dots = number(names, b"...");
    let keyword = number(names, b"syntax-rules");
    match read_all(alloc, dots, keyword, form)? {
        None => Err(PatternFault::BadRules),
        Some(rules) => Ok(rules),
    }
}

/// The parts of the whole pattern behind its first element.
fn read_behind(
    alloc: Global,
    dots: Option<u32>,
    literals: &Keys,
    forms: &[Syntax],
) -> Result<Option<RowRead>, AllocError>
    ensures { IfOk result (λ r. r ≡ option_map behind_first (row_of dots literals.now 0 forms.now)) }
{
    match read_row(alloc, dots, literals, 0, forms)? {
        None => Ok(None),
        Some(row) => Ok(Some(behind_ignored(alloc, row)?)),
    }
}

fn read_whole(
    alloc: Global,
    dots: Option<u32>,
    literals: &Keys,
    form: &Syntax,
) -> Result<Option<Read>, AllocError>
    ensures { IfOk result (λ r. r ≡ whole_of dots literals.now form.now) }
{
    match &form.node {
        SyntaxNode::List(forms) => match forms.as_slice() {
            [] => Ok(None),
            [_, rest @ ..] => {
                let row = read_behind(alloc, dots, literals, rest)?;
                list_of(alloc, row)
            }
        },
        SyntaxNode::Dotted(forms, last) => match forms.as_slice() {
            [] => Ok(None),
            [_, rest @ ..] => match read_behind(alloc, dots, literals, rest)? {
                None => Ok(None),
                Some(row) => {
                    let last = read_pattern(alloc, dots, literals, 0, last.get())?;
                    dotted_of_row(alloc, row, last)
                }
            },
        },
        SyntaxNode::Ident(_)
        | SyntaxNode::Boolean(_)
        | SyntaxNode::Integer(_)
        | SyntaxNode::Char(_)
        | SyntaxNode::Text(_)
        | SyntaxNode::Vector(_) => Ok(None),
    }
}

fn depths(alloc: Global, vars: &[Var]) -> Result<Items<usize>, AllocError>
    ensures { IfOk result (λ r. r ≡ map (λ v. v.depth) vars.now) }
{
    let mut all = Items::new(alloc);
    for var in vars {
        all.push(var.depth)?;
    }
    Ok(all)
}

fn with_template(
    alloc: Global,
    dots: Option<u32>,
    template: &Syntax,
    read: Read,
) -> Result<Option<Rule>, AllocError>
    ensures { IfOk result (λ r. r ≡ rule_with dots template.now read) }
{
    let Read { pattern, vars } = read;
    match table_of(alloc, vars.as_slice())? {
        None => Ok(None),
        Some(keys) => {
            let depths = depths(alloc, vars.as_slice())?;
            match read_template(alloc, dots, &keys, depths.as_slice(), template, 0)? {
                None => Ok(None),
                Some(template) => Ok(Some(Rule { pattern, template })),
            }
        }
    }
}

fn read_rule(
    alloc: Global,
    dots: Option<u32>,
    literals: &Keys,
    form: &Syntax,
) -> Result<Option<Rule>, AllocError>
    ensures { IfOk result (λ r. r ≡ rule_of dots literals.now form.now) }
{
    match list_parts(form) {
        None => Ok(None),
        Some(forms) => match forms {
            [pattern, template] => match read_whole(alloc, dots, literals, pattern)? {
                None => Ok(None),
                Some(read) => with_template(alloc, dots, template, read),
            },
            _ => Ok(None),
        },
    }
}

fn read_rules(
    alloc: Global,
    dots: Option<u32>,
    literals: &Keys,
    forms: &[Syntax],
) -> Result<Option<Items<Rule>>, AllocError>
    ensures { IfOk result (λ r. r ≡ rules_of dots literals.now forms.now) }
{
    let mut rules = Items::new(alloc);
    for form in forms {
        match read_rule(alloc, dots, literals, form)? {
            None => return Ok(None),
            Some(rule) => rules.push(rule)?,
        }
    }
    Ok(Some(rules))
}

fn is_keyword(keyword: Option<u32>, head: &Syntax) -> bool
    ensures { result ≡ keyword_spec keyword (ident_spec head.now) }
{
    match ident_at(head) {
        None => false,
        Some(id) => is_named(keyword, id),
    }
}

fn read_all(
    alloc: Global,
    dots: Option<u32>,
    keyword: Option<u32>,
    form: &Syntax,
) -> Result<Option<Items<Rule>>, AllocError>
    ensures { IfOk result (λ r. r ≡ compiled dots keyword form.now) }
{
    match list_parts(form) {
        None => Ok(None),
        Some(forms) => match forms {
            [head, literals, rules @ ..] => {
                if !is_keyword(keyword, head) {
                    return Ok(None);
                }
                match literals_of(alloc, literals)? {
                    None => Ok(None),
                    Some(ids) => read_rules(alloc, dots, &ids, rules),
                }
            }
            _ => Ok(None),
        },
    }
}

// The number of a text, where the table has it.
fn number(names: &Names, text: &[u8]) -> Option<u32>
    ensures { result ≡ number_of names.now text.now }
{
    match names.find(text) {
        None => None,
        Some(name) => Some(name.0),
    }
}
