//! Defines the syntax trees of expressions, as written: no name is resolved yet.

ghost use Rattle.std.specs.Prelude.{◌≡◌};
ghost use Rattle.jt_ast.specs.ExpressionView.{is_negated};

/// A prefix operator.
#[derive(Clone, Copy, Debug, PartialEq, Eq)]
pub enum UnaryOperator {
    /// `-`
    Negate,
    /// `+`
    Plus,
    /// `not`
    Not,
}

/// An infix operator.
#[derive(Clone, Copy, Debug, PartialEq, Eq)]
pub enum BinaryOperator {
    /// `or`
    Or,
    /// `and`
    And,
    /// `==`
    Equal,
    /// `!=`
    NotEqual,
    /// `<`
    Less,
    /// `<=`
    LessOrEqual,
    /// `>`
    Greater,
    /// `>=`
    GreaterOrEqual,
    /// `in`
    In,
    /// `not in`
    NotIn,
    /// `+`
    Add,
    /// `-`
    Subtract,
    /// `~`
    Concatenate,
    /// `*`
    Multiply,
    /// `//`
    FloorDivide,
    /// `%`
    Remainder,
    /// `**`
    Power,
}

/// The polarity of a test: asserted or negated.
#[derive(Clone, Copy, Debug, PartialEq, Eq)]
pub enum Polarity {
    /// `is`
    Is,
    /// `is not`
    IsNot,
}

impl Polarity {
    /// Returns whether the test is negated.
    pub fn is_negated(self) -> bool
        ensures { result ≡ is_negated self }
    {
        matches!(self, Polarity::IsNot)
    }
}

/// A literal.
#[derive(Drop)]
pub enum Literal {
    /// An integer.
    Number(i64),
    /// The value of a text literal.
    Text(String),
    /// `true` or `false`.
    Truth(bool),
    /// `none`.
    None,
}

/// An expression. Pairs are the entries of a map or the keyword arguments of a call.
#[derive(Drop)]
pub enum Expr {
    /// A literal.
    Constant(Literal),
    /// A name.
    Name(String),
    /// An expression in parentheses.
    Group(Box<Expr>),
    /// `[a, b]`
    List(Vec<Expr>),
    /// `{"k": a}`
    Map(Vec<(String, Expr)>),
    /// `a.k`
    Attribute(Box<Expr>, String),
    /// `a[b]`
    Item(Box<Expr>, Box<Expr>),
    /// `a(b, k=c)`
    Call {
        callee: Box<Expr>,
        arguments: Vec<Expr>,
        keywords: Vec<(String, Expr)>,
    },
    /// `a|f(b, k=c)`
    Filter {
        input: Box<Expr>,
        name: String,
        arguments: Vec<Expr>,
        keywords: Vec<(String, Expr)>,
    },
    /// `a is t(b, k=c)`, or `a is not t(b, k=c)`
    Test {
        value: Box<Expr>,
        polarity: Polarity,
        name: String,
        arguments: Vec<Expr>,
        keywords: Vec<(String, Expr)>,
    },
    /// A prefix operator with its operand.
    Unary(UnaryOperator, Box<Expr>),
    /// An infix operator with its operands.
    Binary {
        operator: BinaryOperator,
        left: Box<Expr>,
        right: Box<Expr>,
    },
    /// `a if c`
    When {
        condition: Box<Expr>,
        value: Box<Expr>,
    },
    /// `a if c else b`
    Choice {
        condition: Box<Expr>,
        value: Box<Expr>,
        other: Box<Expr>,
    },
}
