// The built-in members by number.
ghost use Rattle.std.specs.Prelude.{◌≡◌, ◌<◌, slice_get, Some};
ghost use Rattle.dart_values.specs.Members.{members, arity};

use program::NativeId;

#[derive(Clone, Copy)]
pub enum ObjectMember {
    Equals,
    ToString,
    NoSuchMethod,
}

/// An operator of a bool with a bool.
#[derive(Clone, Copy)]
pub enum BoolOperator {
    And,
    Or,
    Xor,
}

/// An operator of an int with an int.
#[derive(Clone, Copy)]
pub enum IntOperator {
    Add,
    Subtract,
    Multiply,
    Divide,
    Remainder,
    And,
    Or,
    Xor,
    ShiftLeft,
    ShiftRight,
    ShiftUnsigned,
    Less,
    LessEqual,
    Greater,
    GreaterEqual,
}

/// A member of int that takes any value, or none.
#[derive(Clone, Copy)]
pub enum IntMember {
    Equals,
    Negate,
    Complement,
    IsEven,
    IsOdd,
}

#[derive(Clone, Copy)]
pub enum StringMember {
    Concat,
    Equals,
    UnitAt,
    Length,
    IsEmpty,
    ToString,
    CodeUnitAt,
    Substring,
}

#[derive(Clone, Copy)]
pub enum ListMember {
    ElementAt,
    SetElement,
    Length,
    IsEmpty,
    Add,
    RemoveLast,
}

#[derive(Clone, Copy)]
pub enum InvocationMember {
    MemberName,
    PositionalArguments,
    IsMethod,
    IsGetter,
    IsSetter,
}

#[derive(Clone, Copy)]
pub enum Member {
    Object(ObjectMember),
    NullToString,
    BoolWith(BoolOperator),
    BoolToString,
    IntWith(IntOperator),
    Int(IntMember),
    IntToString,
    String(StringMember),
    List(ListMember),
    /// It calls the `toString` of the elements, so the heap alone does not do it.
    ListToString,
    Invocation(InvocationMember),
}

const MEMBERS: [Member; 49] = [
    Member::Object(ObjectMember::Equals),
    Member::Object(ObjectMember::ToString),
    Member::Object(ObjectMember::NoSuchMethod),
    Member::NullToString,
    Member::BoolWith(BoolOperator::And),
    Member::BoolWith(BoolOperator::Or),
    Member::BoolWith(BoolOperator::Xor),
    Member::BoolToString,
    Member::IntWith(IntOperator::Add),
    Member::IntWith(IntOperator::Subtract),
    Member::IntWith(IntOperator::Multiply),
    Member::IntWith(IntOperator::Divide),
    Member::IntWith(IntOperator::Remainder),
    Member::IntWith(IntOperator::And),
    Member::IntWith(IntOperator::Or),
    Member::IntWith(IntOperator::Xor),
    Member::IntWith(IntOperator::ShiftLeft),
    Member::IntWith(IntOperator::ShiftRight),
    Member::IntWith(IntOperator::ShiftUnsigned),
    Member::IntWith(IntOperator::Less),
    Member::IntWith(IntOperator::LessEqual),
    Member::IntWith(IntOperator::Greater),
    Member::IntWith(IntOperator::GreaterEqual),
    Member::Int(IntMember::Equals),
    Member::Int(IntMember::Negate),
    Member::Int(IntMember::Complement),
    Member::IntToString,
    Member::Int(IntMember::IsEven),
    Member::Int(IntMember::IsOdd),
    Member::String(StringMember::Concat),
    Member::String(StringMember::Equals),
    Member::String(StringMember::UnitAt),
    Member::String(StringMember::Length),
    Member::String(StringMember::IsEmpty),
    Member::String(StringMember::ToString),
    Member::String(StringMember::CodeUnitAt),
    Member::String(StringMember::Substring),
    Member::List(ListMember::ElementAt),
    Member::List(ListMember::SetElement),
    Member::List(ListMember::Length),
    Member::List(ListMember::IsEmpty),
    Member::List(ListMember::Add),
    Member::List(ListMember::RemoveLast),
    Member::ListToString,
    Member::Invocation(InvocationMember::MemberName),
    Member::Invocation(InvocationMember::PositionalArguments),
    Member::Invocation(InvocationMember::IsMethod),
    Member::Invocation(InvocationMember::IsGetter),
    Member::Invocation(InvocationMember::IsSetter),
];

pub fn member_of(id: NativeId) -> Member
    requires { id.0 < 49 }
    ensures { slice_get members id.0 ≡ Some result }
{
    MEMBERS[id.0 as usize]
}

impl Member {
    /// How many arguments it takes.
    pub fn arity(self) -> usize
        ensures { result ≡ arity self }
    {
        match self {
            Member::Object(ObjectMember::Equals) => 1,
            Member::Object(ObjectMember::ToString) => 0,
            Member::Object(ObjectMember::NoSuchMethod) => 1,
            Member::NullToString => 0,
            Member::BoolWith(_) => 1,
            Member::BoolToString => 0,
            Member::IntWith(_) => 1,
            Member::Int(IntMember::Equals) => 1,
            Member::Int(_) => 0,
            Member::IntToString => 0,
            Member::String(member) => member.arity(),
            Member::List(member) => member.arity(),
            Member::ListToString => 0,
            Member::Invocation(_) => 0,
        }
    }
}

impl StringMember {
    ghost use Rattle.std.specs.Prelude.{◌≡◌};
    ghost use Rattle.dart_values.specs.Members.{string_arity};

    fn arity(self) -> usize
        ensures { result ≡ string_arity self }
    {
        match self {
            StringMember::Length | StringMember::IsEmpty | StringMember::ToString => 0,
            StringMember::Substring => 2,
            _ => 1,
        }
    }
}

impl ListMember {
    ghost use Rattle.std.specs.Prelude.{◌≡◌};
    ghost use Rattle.dart_values.specs.Members.{list_arity};

    fn arity(self) -> usize
        ensures { result ≡ list_arity self }
    {
        match self {
            ListMember::SetElement => 2,
            ListMember::ElementAt | ListMember::Add => 1,
            _ => 0,
        }
    }
}
