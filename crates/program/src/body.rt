// Bodies: variables are slots, static targets are numbers, and each call names its site.
use crate::ids::{ClassId, MethodId, SiteId};
use crate::literal::{Literal, Text};
use sqlite_items::{Boxed, Items};

/// An operator with two operands that is a member of the left one's class.
#[derive(Clone, Copy, Debug, PartialEq, Eq)]
pub enum BinaryOperator {
    Equal,
    NotEqual,
    Less,
    LessEqual,
    Greater,
    GreaterEqual,
    BitOr,
    BitXor,
    BitAnd,
    ShiftLeft,
    ShiftRight,
    ShiftUnsigned,
    Add,
    Subtract,
    Multiply,
    Divide,
    Remainder,
}

/// A call of an operator's member through a site.
#[derive(Clone, Copy, Debug, PartialEq, Eq)]
pub struct OperatorCall {
    pub operator: BinaryOperator,
    pub site: SiteId,
}

/// An expression. Slots are counted from the oldest open variable, and parameters come first.
#[derive(Drop)]
pub enum Expression {
    Constant(Literal),
    This,
    Local(u32),
    Global(u32),
    /// A text, and then interpolations.
    Interpolation(Text, Items<Piece<Expression>>),
    /// A call of a function.
    CallFunction(u32, Items<Expression>),
    Print(Boxed<Expression>),
    /// A new object, whose constructor is entered.
    New(ClassId, Items<Expression>),
    /// A member of the superclass, called or read.
    Super(MethodId, Items<Expression>),
    List(Items<Expression>),
    /// A receiver, and calls and reads through sites, each on what the one before it answered.
    Postfix(Boxed<Expression>, Items<SiteCall<Expression>>),
    /// Operators of one level, from left to right.
    Chain(Boxed<Expression>, Items<Link<Expression>>),
    /// `!`
    Not(Boxed<Expression>),
    /// `is`, or `is!` where the flag is set.
    Is(Boxed<Expression>, bool, ClassId),
    /// `?:`
    Conditional(Boxed<Expression>, Boxed<Expression>, Boxed<Expression>),
    Assign(AssignmentTarget<Boxed<Expression>>, Boxed<Expression>),
    /// `+=` and its like.
    CompoundAssign(UpdateTarget<Boxed<Expression>>, OperatorCall, Boxed<Expression>),
    /// `++` and `--`; the flag is set where it stands before its target.
    Increment(bool, OperatorCall, UpdateTarget<Boxed<Expression>>),
    Throw(Boxed<Expression>),
}

/// An interpolation: its site, its value, and the text behind it.
#[derive(Drop)]
pub struct Piece<E> {
    pub site: SiteId,
    pub value: E,
    pub then: Text,
}

/// A call or a read through a site.
#[derive(Drop)]
pub struct SiteCall<E> {
    pub site: SiteId,
    pub arguments: Items<E>,
}

/// What joins an operand to what stands on its left. `&&` and `||` call nothing.
#[derive(Clone, Copy, Debug, PartialEq, Eq)]
pub enum Joint {
    And,
    Or,
    Operator(OperatorCall),
}

/// An operator with its right side.
#[derive(Drop)]
pub struct Link<E> {
    pub joint: Joint,
    pub operand: E,
}

/// What is assigned to.
#[derive(Drop)]
pub enum AssignmentTarget<E> {
    Local(u32),
    Global(u32),
    /// The superclass's setter.
    Super(MethodId),
    /// The receiver, and the site of the write.
    Member(E, SiteId),
    /// The receiver, the index, and the site of the write.
    Element(E, E, SiteId),
}

/// What is read and then written, by a compound assignment, `++` or `--`.
#[derive(Drop)]
pub enum UpdateTarget<E> {
    Local(u32),
    Global(u32),
    /// The superclass's getter and setter.
    Super(MethodId, MethodId),
    /// The receiver, and the sites of the read and the write.
    Member(E, SiteId, SiteId),
    /// The receiver, the index, and the sites of the read and the write.
    Element(E, E, SiteId, SiteId),
}

/// The first part of a `for`.
#[derive(Drop)]
pub enum First {
    Nothing,
    Declares(Expression),
    Runs(Expression),
}

#[derive(Drop)]
pub enum Statement {
    Block(Items<Statement>),
    /// A local, which takes the next slot until its block ends.
    Declare(Expression),
    Run(Expression),
    Empty,
    If(Expression, Boxed<Statement>, Option<Boxed<Statement>>),
    While(Expression, Boxed<Statement>),
    /// The first part, the condition, the last part, and the body.
    For(First, Expression, Items<Expression>, Boxed<Statement>),
    Do(Boxed<Statement>, Expression),
    Break,
    Continue,
    Return(Expression),
}

#[derive(Drop)]
pub enum Body {
    Arrow(Expression),
    Block(Items<Statement>),
}
