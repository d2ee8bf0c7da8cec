//! Numbered programs: classes, methods, functions, selectors, sites and globals by number, and what is true of each.
#![tactic(auto)]

mod body;
mod built_in;
mod ids;
mod literal;
mod numbered;

pub use body::{
    AssignmentTarget, BinaryOperator, Body, Expression, First, Joint, Link, OperatorCall, Piece,
    SiteCall, Statement, UpdateTarget,
};
pub use built_in::built_in_program;
pub use ids::{ClassId, EntryId, MethodId, NativeId, SelectorId, SiteId, UnitId};
pub use literal::{Literal, Text};
pub use numbered::{
    Class, Constructor, Field, Function, Method, MethodBody, Numbered, Selector, SelectorKind,
    Site, SitePlace, Target,
};
