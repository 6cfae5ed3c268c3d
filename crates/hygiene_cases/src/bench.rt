//! What a case has so far, and its forms.

use crate::showing::{put, put_atom, put_meant};
use crate::trouble::Trouble;
use ps_base::{Bytes, Core, Limits, Names};
use ps_hygiene::{Hygiene, Shape, held};
use ps_modules::Linked;
use ps_pattern::{Binding, Ident, Syntax, SyntaxNode, compile_rules};
use std::alloc::Global;

/// How deep forms are shown.
pub const LEVELS: u32 = 100;

/// What a case has so far.
#[derive(Drop)]
pub struct Bench<'a> {
    pub alloc: Global,
    pub names: &'a Names,
    pub limits: Limits,
    pub linked: Linked,
    pub hygiene: Hygiene,
    pub locals: u32,
    pub shown: bool,
}

impl Bench<'_> {
    /// Defines the name of a definition.
    pub fn define(&mut self, form: &Syntax, number: u32) -> Result<(), Trouble> {
        let made = self.hygiene.settle(&self.limits, form)?;
        let form = held(form, &made);
        match parts_of(form) {
            [_, name, ..] => {
                let id = ident_of(name)?;
                Ok(self.hygiene.define(id, Binding::Global(number))?)
            }
            _ => Err(Trouble::Unread(form.place)),
        }
    }

    /// Defines the macro of a definition.
    pub fn define_syntax(&mut self, form: &Syntax) -> Result<(), Trouble> {
        let made = self.hygiene.settle(&self.limits, form)?;
        let form = held(form, &made);
        match parts_of(form) {
            [_, name, rules] => {
                let rules = compile_rules(self.alloc, rules, self.names)?;
                let number = self.hygiene.add_macro(rules)?;
                let id = ident_of(name)?;
                Ok(self.hygiene.define(id, Binding::Macro(number))?)
            }
            _ => Err(Trouble::Unread(form.place)),
        }
    }

    /// Appends what a form is.
    #[cycle(showing)]
    pub fn show(&mut self, levels: u32, form: &Syntax, page: &mut Bytes) -> Result<(), Trouble> {
        if levels == 0 {
            return Err(Trouble::Deep);
        }
        let made = self.hygiene.settle(&self.limits, form)?;
        let form = held(form, &made);
        match self.hygiene.shape(form) {
            Shape::Special(Core::Lambda) => self.show_lambda(levels - 1, form, page),
            Shape::Special(Core::LetSyntax) => self.show_macro(levels - 1, form, page),
            Shape::Special(_) | Shape::Call(_, _) => {
                page.push(b'(')?;
                self.show_all(levels - 1, parts_of(form), page)?;
                Ok(page.push(b')')?)
            }
            Shape::Name(meant) => {
                put_atom(self.alloc, self.names, form, page)?;
                put_meant(self.alloc, meant, page)
            }
            Shape::Bad => put(b"bad", page),
            Shape::Use(_) => put(b"use", page),
            Shape::Boolean(_) | Shape::Integer(_) | Shape::Char(_) | Shape::Text(_) => {
                put_atom(self.alloc, self.names, form, page)
            }
        }
    }

    // Appends what forms are, with a space between each two.
    #[cycle(showing)]
    fn show_all(&mut self, levels: u32, forms: &[Syntax], page: &mut Bytes) -> Result<(), Trouble> {
        for (i, form) in forms.iter().enumerate() {
            if i > 0 {
                page.push(b' ')?;
            }
            self.show(levels, form, page)?;
        }
        Ok(())
    }

    // A `lambda`, with its parameters bound in its body.
    #[cycle(showing)]
    fn show_lambda(&mut self, levels: u32, form: &Syntax, page: &mut Bytes) -> Result<(), Trouble> {
        let [head, parameters, body @ ..] = parts_of(form) else {
            return Err(Trouble::Unread(form.place));
        };
        page.push(b'(')?;
        self.show(levels, head, page)?;
        put(b" (", page)?;
        let names = parts_of(parameters);
        for (i, name) in names.iter().enumerate() {
            if i > 0 {
                page.push(b' ')?;
            }
            self.bind(name, page)?;
        }
        put(b") ", page)?;
        self.show_all(levels, body, page)?;
        self.hygiene.leave(names.len());
        Ok(page.push(b')')?)
    }

    // A `let-syntax` of one macro, with it bound in its body.
    #[cycle(showing)]
    fn show_macro(&mut self, levels: u32, form: &Syntax, page: &mut Bytes) -> Result<(), Trouble> {
        let [head, macros, body @ ..] = parts_of(form) else {
            return Err(Trouble::Unread(form.place));
        };
        let [one] = parts_of(macros) else {
            return Err(Trouble::Unread(macros.place));
        };
        let [name, rules] = parts_of(one) else {
            return Err(Trouble::Unread(one.place));
        };
        page.push(b'(')?;
        self.show(levels, head, page)?;
        page.push(b' ')?;
        let rules = compile_rules(self.alloc, rules, self.names)?;
        let number = self.hygiene.add_macro(rules)?;
        self.hygiene.bind(ident_of(name)?, Binding::Macro(number))?;
        put_atom(self.alloc, self.names, name, page)?;
        put_meant(self.alloc, self.hygiene.meaning(ident_of(name)?), page)?;
        page.push(b' ')?;
        self.show_all(levels, body, page)?;
        self.hygiene.leave(1);
        Ok(page.push(b')')?)
    }

    // Binds a parameter to the next local.
    fn bind(&mut self, name: &Syntax, page: &mut Bytes) -> Result<(), Trouble> {
        let id = ident_of(name)?;
        self.hygiene.bind(id, Binding::Local(self.locals))?;
        self.locals = self.locals.wrapping_add(1);
        put_atom(self.alloc, self.names, name, page)?;
        put_meant(self.alloc, self.hygiene.meaning(id), page)
    }
}

fn ident_of(form: &Syntax) -> Result<&Ident, Trouble> {
    match &form.node {
        SyntaxNode::Ident(id) => Ok(id),
        _ => Err(Trouble::Unread(form.place)),
    }
}

fn parts_of(form: &Syntax) -> &[Syntax] {
    match &form.node {
        SyntaxNode::List(parts) => parts.as_slice(),
        _ => &[],
    }
}
