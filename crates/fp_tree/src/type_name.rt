use crate::expression::Expr;
use crate::name::Qual;
use fp_base::Span;

/// The name of a type.
#[derive(Drop)]
pub struct TypeName {
    pub form: TypeForm,
    pub at: Span,
}

/// Which type is named.
#[derive(Drop)]
pub enum TypeForm {
    U8,
    U16,
    U32,
    U64,
    I8,
    I16,
    I32,
    I64,
    F32,
    F64,
    Bool,
    Text { size: Option<Expr> },
    Use(Qual),
}
