//! Trees. Parentheses are kept, and chains of operators and of selectors are lists.

use crate::token::{Identifier, Span, Units};
use sqlite_items::{Boxed, Items};

#[derive(Debug, Drop)]
pub struct Name {
    pub text: Identifier,
    pub span: Span,
}

/// The signs before an operand.
#[derive(Clone, Copy, Debug, PartialEq, Eq)]
pub enum Unary {
    Minus,
    Not,
    Complement,
}

#[derive(Clone, Copy, Debug, PartialEq, Eq)]
pub enum Binary {
    Or,
    And,
    Equal,
    NotEqual,
    Less,
    LessEqual,
    Greater,
    GreaterEqual,
    BitOr,
    BitXor,
    BitAnd,
    ShiftLeft,
    ShiftRight,
    ShiftUnsigned,
    Add,
    Subtract,
    Multiply,
    Divide,
    Remainder,
}

/// `++` and `--`, before their target or behind it.
#[derive(Clone, Copy, Debug, PartialEq, Eq)]
pub enum Step {
    Increment,
    Decrement,
}

/// `=` and the operators that go with it.
#[derive(Clone, Copy, Debug, PartialEq, Eq)]
pub enum Assignment {
    Plain,
    Add,
    Subtract,
    Multiply,
    Divide,
    Remainder,
    BitAnd,
    BitOr,
    BitXor,
    ShiftLeft,
    ShiftRight,
    ShiftUnsigned,
}

#[cycle(tree)]
#[derive(Drop)]
pub enum Expr {
    Null(Span),
    Bool(bool, Span),
    Int(i64, Span),
    /// It stands only under a minus.
    MinInt(Span),
    This(Span),
    /// The code units of the pieces, and the expressions between them.
    Str(Units, Span),
    Joined(Units, Span, Items<Piece<Expr>>),
    Name(Name),
    Call(Name, Items<Expr>),
    SuperGet(Span, Name),
    SuperCall(Span, Name, Items<Expr>),
    Paren(Boxed<Expr>),
    List(Span, Items<Expr>),
    Postfix(Boxed<Expr>, Items<Selector>),
    /// Whether it stands before its target, which, and where.
    Step(bool, Step, Span, Boxed<Expr>),
    Unary(Unary, Span, Boxed<Expr>),
    Chain(Boxed<Expr>, Items<Link<Expr>>),
    /// Whether it is `is!`.
    Is(Boxed<Expr>, bool, Span, Name),
    Cond(Boxed<Expr>, Boxed<Expr>, Boxed<Expr>),
    Assign(Boxed<Expr>, Assignment, Span, Boxed<Expr>),
    Throw(Span, Boxed<Expr>),
}

/// What follows a piece of a string: an expression, and the next piece.
#[derive(Drop)]
pub struct Piece<E> {
    pub value: E,
    pub then: Units,
    pub span: Span,
}

#[cycle(tree)]
#[derive(Drop)]
pub enum Selector {
    Member(Name),
    Invoke(Name, Items<Expr>),
    Index(Span, Expr),
}

/// An operator and the operand on its right.
#[derive(Drop)]
pub struct Link<E> {
    pub operator: Binary,
    pub span: Span,
    pub operand: E,
}

#[derive(Drop)]
pub struct Local {
    pub is_final: bool,
    pub name: Name,
    pub value: Option<Expr>,
}

/// The first part of a `for`.
#[derive(Drop)]
pub enum First {
    Nothing,
    Local(Local),
    Run(Expr),
}

#[derive(Drop)]
pub enum Stmt {
    Block(Items<Stmt>),
    Local(Local),
    Run(Expr),
    Empty,
    If(Expr, Boxed<Stmt>, Option<Boxed<Stmt>>),
    While(Expr, Boxed<Stmt>),
    Do(Boxed<Stmt>, Expr),
    For(First, Option<Expr>, Items<Expr>, Boxed<Stmt>),
    Break(Span),
    Continue(Span),
    Return(Span, Option<Expr>),
}

/// `is_field` of `this.x`, which only constructors have.
#[derive(Drop)]
pub struct Param {
    pub name: Name,
    pub is_final: bool,
    pub is_field: bool,
    pub optional: bool,
    pub default: Option<Expr>,
}

#[derive(Drop)]
pub enum Body {
    Arrow(Expr),
    Block(Items<Stmt>),
}

#[derive(Drop)]
pub struct Function {
    pub name: Name,
    pub is_entry: bool,
    pub params: Items<Param>,
    pub body: Body,
}

/// The operators that a class may declare.
#[derive(Clone, Copy, Debug, PartialEq, Eq)]
pub enum Operator {
    Add,
    Subtract,
    Multiply,
    Divide,
    Remainder,
    BitAnd,
    BitOr,
    BitXor,
    ShiftLeft,
    ShiftRight,
    ShiftUnsigned,
    Less,
    LessEqual,
    Greater,
    GreaterEqual,
    Equal,
    Complement,
    /// `[]`
    Get,
    /// `[]=`
    Set,
}

/// What a constructor passes to its superclass, at the word `super`.
#[derive(Drop)]
pub struct Passed {
    pub span: Span,
    pub args: Items<Expr>,
}

#[derive(Drop)]
pub enum Member {
    Field(Local),
    Method(Name, Items<Param>, Option<Body>),
    Getter(Name, Option<Body>),
    Setter(Name, Param, Option<Body>),
    Operator(Operator, Span, Items<Param>, Option<Body>),
    /// Its parameters, what it passes to the superclass, and its body.
    Constructor(Name, Items<Param>, Option<Passed>, Option<Items<Stmt>>),
}

#[derive(Drop)]
pub struct ClassDecl {
    pub name: Name,
    pub is_abstract: bool,
    pub parent: Option<Name>,
    pub interfaces: Items<Name>,
    pub members: Items<Member>,
}

#[derive(Drop)]
pub enum Top {
    Class(ClassDecl),
    Function(Function),
    Variable(Local),
}

/// The declarations of a text, in its order.
#[derive(Drop)]
pub struct Tree {
    pub tops: Items<Top>,
}
