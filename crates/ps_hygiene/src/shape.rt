//! What forms are.

ghost use Rattle.std.specs.Prelude.{◌≡◌};
ghost use Rattle.ps_hygiene.specs.Forms.{shape, list_shape, dotted_shape, used};
ghost use Rattle.ps_pattern.specs.declared.syntax.SyntaxNode.{out-SyntaxNode};
ghost use Rattle.ps_hygiene.specs.Looks.{seen};
ghost use Rattle.ps_hygiene.specs.Meanings.{meaning};

use crate::hygiene::Hygiene;
use crate::meaning::Meant;
use ps_base::{Bytes, Core};
use ps_pattern::{Binding, Syntax, SyntaxNode};

/// What a form is, told by its outermost level and by what its operator means (R5RS 4.1, 4.3).
#[derive(Clone, Copy, Drop)]
pub enum Shape<'a> {
    /// `#t` or `#f`
    Boolean(bool),
    /// An integer.
    Integer(&'a i64),
    /// A character, by its code.
    Char(u8),
    /// A string, by its bytes.
    Text(&'a Bytes),
    /// An identifier, by what it means.
    Name(Meant),
    /// A list that begins with the name of a special form.
    Special(Core),
    /// A list or a dotted list that begins with the name of the macro of this number.
    Use(u32),
    /// Another list, by its operator and the forms behind it.
    Call(&'a Syntax, &'a [Syntax]),
    /// A vector, another dotted list, or the empty list.
    Bad,
}

impl Hygiene {
    /// What a form is here.
    #[tactic(auto, unfolding(crate::specs::Forms::shape))]
    pub fn shape<'a>(&self, form: &'a Syntax) -> Shape<'a>
        ensures { seen result ≡ shape self.now.world self.now.here form.now }
    {
        match &form.node {
            SyntaxNode::Boolean(x) => Shape::Boolean(*x),
            SyntaxNode::Integer(n) => Shape::Integer(n),
            SyntaxNode::Char(code) => Shape::Char(*code),
            SyntaxNode::Text(bytes) => Shape::Text(bytes),
            SyntaxNode::Ident(id) => Shape::Name(self.meaning(id)),
            SyntaxNode::List(all) => match all.as_slice() {
                [] => Shape::Bad,
                [operator, operands @ ..] => self.list_shape(operator, operands),
            },
            SyntaxNode::Dotted(all, _) => match all.as_slice() {
                [] => Shape::Bad,
                [operator, ..] => self.dotted_shape(operator),
            },
            SyntaxNode::Vector(_) => Shape::Bad,
        }
    }

    // The macro that a form uses.
    pub(crate) fn used(&self, form: &Syntax) -> Option<u32>
        ensures { result ≡ used (shape self.now.world self.now.here form.now) }
    {
        match self.shape(form) {
            Shape::Use(number) => Some(number),
            Shape::Boolean(_)
            | Shape::Integer(_)
            | Shape::Char(_)
            | Shape::Text(_)
            | Shape::Name(_)
            | Shape::Special(_)
            | Shape::Call(_, _)
            | Shape::Bad => None,
        }
    }

    fn list_shape<'a>(&self, operator: &'a Syntax, operands: &'a [Syntax]) -> Shape<'a>
        ensures { seen result ≡ list_shape (meaning self.now.world self.now.here) operator.now operands.now (out-SyntaxNode operator.now.node) }
    {
        let SyntaxNode::Ident(id) = &operator.node else {
            return Shape::Call(operator, operands);
        };
        match self.meaning(id).binding {
            Binding::Core(core) => Shape::Special(core),
            Binding::Macro(number) => Shape::Use(number),
            Binding::Local(_) | Binding::Global(_) | Binding::Primitive(_) | Binding::Unbound(_) =>
                Shape::Call(operator, operands),
        }
    }

    fn dotted_shape<'a>(&self, operator: &Syntax) -> Shape<'a>
        ensures { seen result ≡ dotted_shape (meaning self.now.world self.now.here) (out-SyntaxNode operator.now.node) }
    {
        let SyntaxNode::Ident(id) = &operator.node else {
            return Shape::Bad;
        };
        match self.meaning(id).binding {
            Binding::Macro(number) => Shape::Use(number),
            Binding::Core(_)
            | Binding::Local(_)
            | Binding::Global(_)
            | Binding::Primitive(_)
            | Binding::Unbound(_) => Shape::Bad,
        }
    }
}
